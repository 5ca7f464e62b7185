// How a life begins.
ghost use Rattle.replay.specs.Beginnings.{begun, memory_begun, TypedBeginning};
ghost use Rattle.std.specs.Prelude.{◌≡◌};

use crate::steps::State;
use books::book::Book;
use books::known::numbers_known;
use judging::faults::{ReceiptFault, Refusal};
use products::closed::Closed;
use products::opened::Open;

/// What a product is started with: its closing form, and the form and the list of its identification.
#[derive(Drop)]
pub struct Opening {
    // Any number, as `form` is: one that no form has is refused.
    pub closing: u8,
    pub form: u8,
    pub numbers: Vec<i32>,
}

/// The first call of a life: the start of a product, or the receipt of what lies in the memory.
#[derive(Drop)]
pub enum Beginning {
    Start(Opening),
    Receive { count: usize },
}

/// Why no product came about.
#[derive(Clone, Copy, PartialEq, Eq, Debug)]
pub enum NotBegun {
    Start(Refusal),
    Receipt(ReceiptFault),
}

/// Starts or receives a product.
pub fn begin<B: Book>(beginning: &Beginning, memory: &mut [u8], book: &B) -> Result<State, NotBegun>
    ensures known { TypedBeginning memory.old beginning.now }
    ensures answer { result ≡ begun (B.meaning book.now) memory.old beginning.now }
    ensures after { memory.new ≡ memory_begun (B.meaning book.now) memory.old beginning.now }
{
    match beginning {
        Beginning::Start(opening) => {
            let list = opening.numbers.as_slice();
            numbers_known(list);
            Open::start(memory, book, opening.closing, opening.form, list)
                .map(State::Opened)
                .map_err(NotBegun::Start)
        }
        Beginning::Receive { count } => {
            Closed::receive(memory, *count, book)
                .map(State::Shut)
                .map_err(NotBegun::Receipt)
        }
    }
}
