// The mode and the submode of a block.

/// What a block is: its mode and its submode, as 5 and 3 of plotted winds.
#[derive(Clone, Copy, PartialEq, Eq, Debug)]
pub struct Modes {
    pub mode: u8,
    pub submode: u8,
}
