// The kind of mode 5 and submode 3.
ghost use Rattle.winds.specs.Winds.{winds_meaning};
ghost use Rattle.winds.specs.WindLaws.{winds_lawful};

use crate::parts::{
    BARB_BYTES, BARB_NUMBERS, check_bytes, check_numbers, count_barbs, number_at, put,
};
use books::faults::{FieldFault, Rule};
use books::room::check_room;
use cells::codes::{read_blanking, write_blanking, write_up_to};
use kinds::kind::Kind;
use wire::modes::Modes;

/// Plotted winds: the shaft length and the blanking byte, then 1 to 409 barbs.
#[derive(Clone, Copy)]
pub struct Winds;

impl Kind for Winds {
    const MODES: Modes = Modes {
        mode: 5,
        submode: 3,
    };

    ghost MODES = { record { mode = 5; submode = 3 } };

    ghost meaning = { λ _. winds_meaning };

    ghost lawful = { λ _. winds_lawful };

    fn judge(&self, field: &[u8]) -> Result<usize, FieldFault> {
        let barbs = count_barbs(field.len(), BARB_BYTES, Rule::DataLength)?;
        read_blanking(field[1], 1)?;
        check_bytes(field)?;
        Ok(2 + BARB_NUMBERS * barbs)
    }

    fn number(&self, field: &[u8], index: usize) -> Option<i32> {
        self.judge(field).ok()?;
        number_at(field, index)
    }

    fn weigh(&self, list: &[i32]) -> Result<usize, FieldFault> {
        let barbs = count_barbs(list.len(), BARB_NUMBERS, Rule::ListLength)?;
        write_up_to(list[0], u8::MAX, 0)?;
        write_blanking(list[1], 1)?;
        check_numbers(list)?;
        Ok(2 + BARB_BYTES * barbs)
    }

    fn write(&self, list: &[i32], place: &mut [u8]) -> Result<(), FieldFault> {
        check_room(place.len(), self.weigh(list)?)?;
        put(list, place)
    }
}
