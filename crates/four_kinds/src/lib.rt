// The book that the programs use: the four kinds of mode 5 over the plain-word book.
#![tactic(auto)]

ghost use Rattle.four_kinds.specs.FourKinds.{four_kinds};
ghost use Rattle.four_kinds.specs.FourLaws.{four_lawful};

use books::book::Book;
use books::faults::FieldFault;
use books::plain::PlainWords;
use kinds::kind::Kind;
use kinds::over::Over;
use labels::kind::Labels;
use texts::characters::Characters;
use texts::message::Message;
use texts::routing::Routing;
use winds::kind::Winds;
use wire::modes::Modes;

/// Texts (5/20 and 5/4), labels (5/1) and winds (5/3) by their kinds, every other block as plain words.
#[derive(Clone, Copy)]
pub struct FourKinds;

type Stack = Over<
    Characters<Routing>,
    Over<Characters<Message>, Over<Labels, Over<Winds, PlainWords>>>,
>;

const STACK: Stack = Over {
    kind: Characters { text: Routing },
    below: Over {
        kind: Characters { text: Message },
        below: Over {
            kind: Labels,
            below: Over {
                kind: Winds,
                below: PlainWords,
            },
        },
    },
};

impl Book for FourKinds {
    ghost meaning = { λ _. four_kinds };

    ghost lawful = { λ _. four_lawful };

    fn judge(&self, modes: Modes, field: &[u8]) -> Result<usize, FieldFault> {
        STACK.judge(modes, field)
    }

    fn number(&self, modes: Modes, field: &[u8], index: usize) -> Option<i32> {
        STACK.number(modes, field, index)
    }

    fn weigh(&self, modes: Modes, list: &[i32]) -> Result<usize, FieldFault> {
        STACK.weigh(modes, list)
    }

    fn write(&self, modes: Modes, list: &[i32], place: &mut [u8]) -> Result<(), FieldFault> {
        STACK.write(modes, list, place)
    }
}
