// The plain-word book.
ghost use Rattle.books.specs.Faults.{first_fail};
ghost use Rattle.books.specs.WordLaws.{plain_lawful};
ghost use Rattle.books.specs.Words.{plain, word_bytes, within, top_word};
ghost use Rattle.std.specs.Prelude.{◌≡◌, ◌*◌, length, None};

use crate::book::Book;
use crate::faults::{FieldFault, Rule};
use crate::room::{check_room, is_bad_length};
use crate::scan::first_outside;
use wire::modes::Modes;

/// The most numbers of a list.
pub const MOST_WORDS: usize = 2_046;

/// Reads any even data field as its pairs of bytes, whatever the mode and the submode.
#[derive(Clone, Copy)]
pub struct PlainWords;

impl Book for PlainWords {
    ghost meaning = { λ _. plain };

    ghost lawful = { λ _. plain_lawful };

    fn judge(&self, _modes: Modes, field: &[u8]) -> Result<usize, FieldFault> {
        if is_bad_length(field.len()) {
            return Err(Rule::DataLength.at(field.len()));
        }
        Ok(field.len() / 2)
    }

    fn number(&self, modes: Modes, field: &[u8], index: usize) -> Option<i32> {
        self.judge(modes, field).ok()?;
        let (words, _) = field.as_chunks::<2>();
        let word = words.get(index)?;
        Some(i32::from(u16::from_be_bytes(*word)))
    }

    fn weigh(&self, _modes: Modes, list: &[i32]) -> Result<usize, FieldFault> {
        if list.len() > MOST_WORDS {
            return Err(Rule::ListLength.at(list.len()));
        }
        match first_outside(list, u16::MAX) {
            Some(index) => Err(Rule::NumberRange.at(index)),
            None => Ok(2 * list.len()),
        }
    }

    fn write(&self, modes: Modes, list: &[i32], place: &mut [u8]) -> Result<(), FieldFault> {
        check_room(place.len(), self.weigh(modes, list)?)?;
        put_words(list, place);
        Ok(())
    }
}

// By index: after a `zip` with `chunks_exact_mut` a proof knows nothing of the place.
/// Writes each number as a pair of bytes.
fn put_words(list: &[i32], place: &mut [u8])
    requires fit { first_fail (within top_word) list.now ≡ None }
    requires room { length place.old ≡ 2 * length list.now }
    ensures { place.new ≡ word_bytes list.now }
{
    for (index, number) in list.iter().enumerate() {
        let [high, low] = (*number as u16).to_be_bytes();
        place[2 * index] = high;
        place[2 * index + 1] = low;
    }
}
