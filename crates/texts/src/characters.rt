// The kind of any text.
ghost use Rattle.texts.specs.TextLaws.{text_agree};
ghost use Rattle.texts.specs.Texts.{text_kind};

use crate::scan::{FIELD_RULES, LIST_RULES, check};
use crate::text::Text;
use books::faults::FieldFault;
use books::room::check_room;
use cells::characters::put_characters;
use kinds::kind::Kind;
use wire::modes::Modes;

/// The kind of a text: its numbers are its bytes in order.
#[derive(Clone, Copy)]
pub struct Characters<T> {
    pub text: T,
}

impl<T: Text> Kind for Characters<T> {
    const MODES: Modes = Modes {
        mode: 5,
        submode: T::SUBMODE,
    };

    ghost MODES = { record { mode = 5; submode = T.SUBMODE } };

    ghost meaning = { λ c. text_kind (T.Text.meaning c.text) };

    ghost lawful = { λ c. text_agree (T.Text.meaning c.text) };

    fn judge(&self, field: &[u8]) -> Result<usize, FieldFault> {
        check(&self.text, field, FIELD_RULES)?;
        Ok(field.len())
    }

    fn number(&self, field: &[u8], index: usize) -> Option<i32> {
        self.judge(field).ok()?;
        field.get(index).map(|byte| i32::from(*byte))
    }

    fn weigh(&self, list: &[i32]) -> Result<usize, FieldFault> {
        check(&self.text, list, LIST_RULES)?;
        Ok(list.len())
    }

    fn write(&self, list: &[i32], place: &mut [u8]) -> Result<(), FieldFault> {
        check_room(place.len(), self.weigh(list)?)?;
        put_characters(list, place);
        Ok(())
    }
}
