// What is wrong with a data field or a list.
ghost use Rattle.books.specs.Faults.{rule_number, fault_at};
ghost use Rattle.std.specs.Prelude.{◌≡◌};

/// The rule that is broken.
#[derive(Clone, Copy, PartialEq, Eq, Debug)]
pub enum Rule {
    /// A data length that the kind lacks; the place is the length.
    DataLength = 1,
    /// A list length that the kind lacks; the place is the length.
    ListLength,
    /// A number outside its range; the place is its index.
    NumberRange,
    /// A byte or pair outside its range; the place is the offset of its first byte.
    ByteRange,
    /// A character that ends a text, before its end; the place is its offset or index.
    EarlyEnd,
    /// A last character that ends no text; the place is its offset or index.
    WrongEnd,
    /// RS in a text that ends in NUL; the place is its offset or index.
    StraySeparator,
}

impl Rule {
    /// Its number in what is printed.
    // A method with a name, where `u8::from` would not say what the number is.
    pub fn number(self) -> u8
        ensures { result ≡ rule_number self }
    {
        self as u8
    }

    /// The rule broken at a place.
    pub const fn at(self, place: usize) -> FieldFault
        ensures { result ≡ fault_at self place }
    {
        FieldFault { rule: self, place }
    }
}

/// A rule, and the place where it is broken.
#[derive(Clone, Copy, PartialEq, Eq, Debug)]
pub struct FieldFault {
    pub rule: Rule,
    pub place: usize,
}
