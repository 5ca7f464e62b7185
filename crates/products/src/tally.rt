// What a product counts.
use wire::forms::Form;

/// The bytes of a product, its blocks, the end counted where it has one, and its closing form.
#[derive(Clone, Copy, PartialEq, Eq, Debug)]
pub struct Tally {
    pub bytes: usize,
    pub blocks: usize,
    pub close: Form,
}
