// The forms of a block.
ghost use Rattle.wire.specs.Forms.{form_number, form_numbered, checksum_pairs, fewest_pairs};
ghost use Rattle.std.specs.Prelude.{◌≡◌, ◌*◌};

/// Which of LENGTH and CHECKSUM a block has.
#[derive(Clone, Copy, PartialEq, Eq, Debug)]
pub enum Form {
    /// Form 0: LENGTH and CHECKSUM.
    Checksummed = 0,
    /// Form 1: LENGTH alone.
    LengthOnly,
}

/// A number that no form has.
#[derive(Clone, Copy, PartialEq, Eq, Debug)]
pub struct NoSuchForm;

impl TryFrom<u16> for Form {
    type Error = NoSuchForm;

    ghost try_from_gives = { λ number r. r ≡ form_numbered number };

    fn try_from(number: u16) -> Result<Form, NoSuchForm> {
        match number {
            0 => Ok(Form::Checksummed),
            1 => Ok(Form::LengthOnly),
            _ => Err(NoSuchForm),
        }
    }
}

impl Form {
    /// Its number, which is its flag on the wire.
    // A method with a name, where `u8::from` would not say what the number is.
    pub fn number(self) -> u8
        ensures { result ≡ form_number self }
    {
        self as u8
    }

    /// How many pairs the CHECKSUM takes.
    pub fn checksum_pairs(self) -> u16
        ensures { result ≡ checksum_pairs self }
    {
        match self {
            Form::Checksummed => 1,
            Form::LengthOnly => 0,
        }
    }

    /// LENGTH of a block without data.
    pub fn fewest_pairs(self) -> u16
        ensures { result ≡ fewest_pairs self }
    {
        2 + self.checksum_pairs()
    }

    /// How many bytes a block without data has.
    pub fn fewest_bytes(self) -> usize
        ensures { result ≡ 2 * fewest_pairs self }
    {
        2 * usize::from(self.fewest_pairs())
    }
}
