// 5/4: a message.
ghost use Rattle.texts.specs.Texts.{message};

use crate::text::{NUL, Text};
use books::faults::Rule;

/// End of text.
const ETX: u8 = 3;

/// End of transmission block.
const ETB: u8 = 23;

/// Record separator.
const RS: u8 = 30;

/// Characters up to one that ends the text, which is NUL, ETX or ETB.
#[derive(Clone, Copy)]
pub struct Message;

impl Text for Message {
    const SUBMODE: u8 = 4;

    ghost SUBMODE = { 4 };

    ghost meaning = { λ _. message };

    fn fewest(&self) -> usize {
        1
    }

    fn broken_rule(&self, character: u8, last: bool, nul: bool) -> Option<Rule> {
        match character {
            NUL | ETX | ETB if last => None,
            // Before the next arm, so that of most characters a run asks each thing once.
            _ if last => Some(Rule::WrongEnd),
            NUL | ETX | ETB => Some(Rule::EarlyEnd),
            RS if nul => Some(Rule::StraySeparator),
            _ => None,
        }
    }
}
