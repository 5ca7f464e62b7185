// What every kind answers.
ghost use Rattle.books.specs.Books.{Agree, judged, number_at, weighed, Writes};
ghost use Rattle.kinds.specs.Kinds.{KindMeaning};
ghost use Rattle.wire.specs.declared.modes.Modes.{Modes};
ghost use Rattle.std.specs.Prelude.{◌≡◌};

use books::faults::FieldFault;
use wire::modes::Modes;

/// What the data fields of one mode and submode hold.
pub trait Kind {
    /// Its mode and submode.
    const MODES: Modes;

    ghost MODES: { Modes };

    ghost meaning: { Self → KindMeaning };

    ghost lawful: { (k : Self) → Agree (meaning k).reading (meaning k).writing };

    /// How many numbers the field holds.
    fn judge(&self, field: &[u8]) -> Result<usize, FieldFault>
        ensures { result ≡ judged ((meaning self.now).reading field.now) };

    /// The number at an index; none past the last, and none of a field with a fault.
    fn number(&self, field: &[u8], index: usize) -> Option<i32>
        ensures { result ≡ number_at ((meaning self.now).reading field.now) index };

    /// How many bytes the list takes.
    fn weigh(&self, list: &[i32]) -> Result<usize, FieldFault>
        ensures { result ≡ weighed ((meaning self.now).writing list.now) };

    /// Writes the list into a place of just its bytes; a refusal leaves the place as it was.
    fn write(&self, list: &[i32], place: &mut [u8]) -> Result<(), FieldFault>
        ensures { Writes ((meaning self.now).writing list.now) place.old result place.new };
}
