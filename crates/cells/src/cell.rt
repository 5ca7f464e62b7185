// A byte or a pair, and the number that it stands for, without a sign or with one.
ghost use Rattle.cells.specs.Cells.{upto_in, twos_in};
ghost use Rattle.cells.specs.Signs.{signed, byte_half, pair_half};
ghost use Rattle.std.specs.Prelude.{◌≡◌, ◌*◌, ◌-◌, ◌<◌, ℕ, ℤ, pos, Option};

/// A byte or a pair of a data field.
pub trait Cell: Copy {
    // What the sign bit is worth, what a cell is worth, and the cell of a worth.
    ghost half: { ℕ };

    ghost worth: { Self → ℕ };

    ghost of: { ℕ → Self };

    /// The number without a sign.
    fn unsigned(self) -> i32
        ensures number { result ≡ pos (worth self) }
        ensures range { worth self < 2 * half };

    /// The cell of a number without a sign; none where it is no such number.
    fn from_unsigned(number: i32) -> Option<Self>
        ensures { result ≡ upto_in of (2 * half - 1) number };

    /// The number in two's complement.
    fn signed(self) -> i32
        ensures { result ≡ signed half (worth self) };

    /// The cell of a number in two's complement; none where it is no such number.
    fn from_signed(number: i32) -> Option<Self>
        ensures { result ≡ twos_in of half number };
}

// Each width is written out: bodies that both could share would ask for more bounds than they have lines.
impl Cell for u8 {
    ghost half = { byte_half };

    ghost worth = { λ byte. byte };

    ghost of = { λ worth. worth };

    fn unsigned(self) -> i32 {
        i32::from(self)
    }

    fn from_unsigned(number: i32) -> Option<u8> {
        u8::try_from(number).ok()
    }

    fn signed(self) -> i32 {
        i32::from(u8::cast_signed(self))
    }

    fn from_signed(number: i32) -> Option<u8> {
        i8::try_from(number).ok().map(i8::cast_unsigned)
    }
}

impl Cell for u16 {
    ghost half = { pair_half };

    ghost worth = { λ pair. pair };

    ghost of = { λ worth. worth };

    fn unsigned(self) -> i32 {
        self.into()
    }

    fn from_unsigned(number: i32) -> Option<u16> {
        u16::try_from(number).ok()
    }

    fn signed(self) -> i32 {
        i32::from(u16::cast_signed(self))
    }

    fn from_signed(number: i32) -> Option<u16> {
        i16::try_from(number).ok().map(i16::cast_unsigned)
    }
}
