// What every book answers.
ghost use Rattle.books.specs.Books.{Meaning, Lawful, judged, number_at, weighed, Writes};
ghost use Rattle.std.specs.Prelude.{◌≡◌};

use crate::faults::FieldFault;
use wire::modes::Modes;

/// The most bytes of a data field.
pub const MOST_BYTES: usize = 4_092;

/// Reads data fields as lists of numbers, and writes such lists as data fields.
pub trait Book {
    ghost meaning: { Self → Meaning };

    ghost lawful: { (b : Self) → Lawful (meaning b) };

    /// How many numbers the field holds.
    fn judge(&self, modes: Modes, field: &[u8]) -> Result<usize, FieldFault>
        ensures { result ≡ judged ((meaning self.now).reading modes.mode modes.submode field.now) };

    /// The number at an index; none past the last, and none of a field with a fault.
    fn number(&self, modes: Modes, field: &[u8], index: usize) -> Option<i32>
        ensures { result ≡ number_at ((meaning self.now).reading modes.mode modes.submode field.now) index };

    /// How many bytes the list takes.
    fn weigh(&self, modes: Modes, list: &[i32]) -> Result<usize, FieldFault>
        ensures { result ≡ weighed ((meaning self.now).writing modes.mode modes.submode list.now) };

    /// Writes the list into a place of just its bytes; a refusal leaves the place as it was.
    fn write(&self, modes: Modes, list: &[i32], place: &mut [u8]) -> Result<(), FieldFault>
        ensures { Writes ((meaning self.now).writing modes.mode modes.submode list.now) place.old result place.new };
}
