// How long a data field may be, and the room that a list takes.
ghost use Rattle.books.specs.Faults.{fault_at};
ghost use Rattle.books.specs.declared.faults.Rule.TheVariants.{DataLength};
ghost use Rattle.books.specs.Words.{bad_length};
ghost use Rattle.wire.specs.Steps.{refuse};
ghost use Rattle.std.specs.Prelude.{◌≡◌, ◌==◌, not};

use crate::book::MOST_BYTES;
use crate::faults::{FieldFault, Rule};

/// Odd, or more than a data field may have.
pub fn is_bad_length(length: usize) -> bool
    ensures { result ≡ bad_length length }
{
    length % 2 != 0 || length > MOST_BYTES
}

/// Refuses a place that has not just the bytes of a list's weight.
pub fn check_room(place: usize, weight: usize) -> Result<(), FieldFault>
    ensures { result ≡ refuse (not (place == weight)) (fault_at DataLength place) }
{
    if place != weight {
        return Err(Rule::DataLength.at(place));
    }
    Ok(())
}
