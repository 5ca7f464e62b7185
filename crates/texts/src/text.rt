// What tells one kind of text from another.
ghost use Rattle.texts.specs.Texts.{TextMeaning};
ghost use Rattle.std.specs.Prelude.{◌≡◌, ℕ};

use books::faults::Rule;

/// Null, which ends a text.
pub const NUL: u8 = 0;

/// The texts of mode 5 and one submode.
pub trait Text {
    const SUBMODE: u8;

    ghost SUBMODE: { ℕ };

    ghost meaning: { Self → TextMeaning };

    /// The fewest characters.
    fn fewest(&self) -> usize
        ensures { result ≡ (meaning self.now).fewest };

    // Two facts of the place, which any text may ask in any order: an enum of the four cases would be no plainer.
    /// The rule that a character breaks: `last` says that none follows, `nul` that the text ends in NUL.
    fn broken_rule(&self, character: u8, last: bool, nul: bool) -> Option<Rule>
        ensures { result ≡ (meaning self.now).breaks last nul character };
}
