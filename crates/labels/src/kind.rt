// The kind of mode 5 and submode 1.
ghost use Rattle.labels.specs.LabelLaws.{labels_lawful};
ghost use Rattle.labels.specs.Labels.{labels_meaning};

use crate::parts::{HEAD, check_characters, check_length, check_list, number_at};
use books::faults::{FieldFault, Rule};
use books::room::check_room;
use cells::characters::put_characters;
use kinds::kind::Kind;
use wire::modes::Modes;

/// Characters placed on a chart: M, N, delta M, delta N, B, R, the character size, and then the characters.
#[derive(Clone, Copy)]
pub struct Labels;

impl Kind for Labels {
    const MODES: Modes = Modes {
        mode: 5,
        submode: 1,
    };

    ghost MODES = { record { mode = 5; submode = 1 } };

    ghost meaning = { λ _. labels_meaning };

    ghost lawful = { λ _. labels_lawful };

    fn judge(&self, field: &[u8]) -> Result<usize, FieldFault> {
        check_length(field.len(), Rule::DataLength)?;
        check_characters(field, Rule::ByteRange)?;
        Ok(field.len())
    }

    fn number(&self, field: &[u8], index: usize) -> Option<i32> {
        // A match: a chain of `filter` and `map` would carry through closures what `number_at` asks of the field.
        match self.judge(field) {
            Ok(count) if index < count => Some(number_at(field, index)),
            _ => None,
        }
    }

    fn weigh(&self, list: &[i32]) -> Result<usize, FieldFault> {
        check_list(list)?;
        Ok(list.len())
    }

    fn write(&self, list: &[i32], place: &mut [u8]) -> Result<(), FieldFault> {
        let head = check_list(list)?;
        check_room(place.len(), list.len())?;
        place[..HEAD].copy_from_slice(&head);
        put_characters(&list[HEAD..], &mut place[HEAD..]);
        Ok(())
    }
}
