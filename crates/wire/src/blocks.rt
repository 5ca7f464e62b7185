// One block: its head, its sum and its data field.
ghost use Rattle.std.specs.Prelude.{◌≡◌, IfOk};
ghost use Rattle.wire.specs.declared.blocks.Malformed.TheVariants.{Flag};
ghost use Rattle.wire.specs.Blocks.{malformed_number, framed, sound, read_head, unbalanced, field_end, size, Framed};

use crate::forms::{Form, NoSuchForm};
use crate::modes::Modes;
use crate::pairs::{sum_pairs, worth};

/// The most pairs of a block.
pub const MOST_PAIRS: u16 = 2_048;

/// The highest mode.
pub const MOST_MODE: u8 = 63;

/// What is wrong with a block by itself.
#[derive(Clone, Copy, PartialEq, Eq, Debug)]
pub enum Malformed {
    /// Under four bytes are left.
    Short = 3,
    /// The flag is that of no form.
    Flag,
    /// LENGTH is out of bounds.
    Length,
    /// The block ends past the bytes.
    Past,
    /// The sum of all pairs is not 0.
    Sum,
    /// The mode is above 63.
    Mode,
}

impl From<NoSuchForm> for Malformed {
    ghost from_gives = { λ _ r. r ≡ Flag };

    fn from(_error: NoSuchForm) -> Malformed {
        Malformed::Flag
    }
}

impl Malformed {
    /// Its number in what is printed.
    // A method with a name, where `u8::from` would not say what the number is.
    pub fn number(self) -> u8
        ensures { result ≡ malformed_number self }
    {
        self as u8
    }
}

/// What the first two pairs of a block tell.
#[derive(Clone, Copy, PartialEq, Eq, Debug)]
pub struct Head {
    pub form: Form,
    /// LENGTH, the number of all pairs of the block.
    pub pairs: u16,
    pub modes: Modes,
}

impl Head {
    /// How many bytes the block has.
    pub fn size(self) -> usize
        ensures { result ≡ size self }
    {
        2 * usize::from(self.pairs)
    }

    /// Where the data field ends: at the CHECKSUM, or with the block.
    pub fn field_end(self) -> usize
        ensures { result ≡ field_end self }
    {
        2 * usize::from(self.pairs.saturating_sub(self.form.checksum_pairs()))
    }
}

fn read_frame(bytes: &[u8]) -> Result<Head, Malformed>
    ensures value { result ≡ framed bytes.now }
    ensures fits { IfOk result (λ h. Framed h bytes.now) }
{
    let [left, right, mode, submode, ..] = bytes else {
        return Err(Malformed::Short);
    };
    let first = worth(*left, *right);
    let form = Form::try_from(first / 16_384)?;
    let pairs = first % 16_384;
    if !(form.fewest_pairs()..=MOST_PAIRS).contains(&pairs) {
        return Err(Malformed::Length);
    }
    let head = Head {
        form,
        pairs,
        modes: Modes {
            mode: *mode,
            submode: *submode,
        },
    };
    if bytes.len() < head.size() {
        return Err(Malformed::Past);
    }
    Ok(head)
}

fn is_unbalanced(form: Form, block: &[u8]) -> bool
    ensures { result ≡ unbalanced form block.now }
{
    match form {
        Form::Checksummed => sum_pairs(block) != 0,
        Form::LengthOnly => false,
    }
}

fn check_sound(head: Head, bytes: &[u8]) -> Result<(), Malformed>
    requires { Framed head bytes.now }
    ensures { result ≡ sound head bytes.now }
{
    if is_unbalanced(head.form, &bytes[0..head.size()]) {
        return Err(Malformed::Sum);
    }
    if head.modes.mode > MOST_MODE {
        return Err(Malformed::Mode);
    }
    Ok(())
}

/// The head of the well-formed block at the front of the bytes.
#[tactic(auto, unfolding(crate::specs::Blocks::read_head))]
pub fn read_head(bytes: &[u8]) -> Result<Head, Malformed>
    ensures value { result ≡ read_head bytes.now }
    ensures fits { IfOk result (λ h. Framed h bytes.now) }
{
    let head = read_frame(bytes)?;
    check_sound(head, bytes)?;
    Ok(head)
}
