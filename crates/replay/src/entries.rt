// A record with a list of its own.
ghost use Rattle.replay.specs.Entries.{IsGivenBy};

use books::known::numbers_known;
use records::drafts::Record;
use wire::modes::Modes;

/// A record with a list of its own.
// Beside `Record`, which borrows its list, so that a call needs no heap: the steps of a life keep theirs.
#[derive(Drop)]
pub struct Entry {
    // Any number: one that no form has is refused.
    pub form: u8,
    pub modes: Modes,
    pub numbers: Vec<i32>,
}

impl<'a> From<&'a Entry> for Record<'a> {
    ghost from_gives = { λ entry given. IsGivenBy entry.now given };

    fn from(entry: &'a Entry) -> Record<'a> {
        numbers_known(&entry.numbers);
        Record {
            form: entry.form,
            modes: entry.modes,
            numbers: &entry.numbers,
        }
    }
}
