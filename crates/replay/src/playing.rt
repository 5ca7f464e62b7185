// One step of a life.
ghost use Rattle.products.specs.Products.{of_open, of_closed, tally_of};
ghost use Rattle.products.specs.Calls.{closes, reopens};
ghost use Rattle.replay.specs.States.{product_in};
ghost use Rattle.replay.specs.Steps.{Scene, told_of, calls, played, TypedOpen, TypedIn, Sunk};
ghost use Rattle.replay.specs.declared.steps.State.TheVariants.{Opened as OpenState};
ghost use Rattle.replay.specs.declared.steps.Told.TheVariants.{Made};
ghost use Rattle.std.specs.Prelude.{◌≡◌, []};

use crate::steps::{State, Step, Told};
use books::book::Book;
use judging::faults::Refusal;
use products::closed::Closed;
use products::kept::Kept;
use products::opened::Open;
use sending::send;
use sinks::sink::Sink;

/// The product, and what a call that made it is told.
fn made(state: State) -> (State, Told)
    ensures { result ≡ (state, Made (product_in state).bytes (product_in state).blocks) }
{
    let told = state.tally().into();
    (state, told)
}

/// The product after a call that leaves it open, and what the call is told.
fn answered(product: Open, answer: Result<(), Refusal>) -> (State, Told)
    ensures { result ≡ (OpenState product, told_of answer (tally_of (of_open product))) }
{
    match answer {
        Ok(()) => made(State::Opened(product)),
        Err(refusal) => (State::Opened(product), Told::Refused(refusal)),
    }
}

fn play_open<B: Book>(mut product: Open, step: &Step, memory: &mut [u8], book: &B) -> (State, Told)
    ensures known { TypedOpen step.now }
    ensures scene { ◌≡◌ {A = Scene} (record { told = result.1; product = product_in result.0; memory = memory.new; put = [] }) (played (B.meaning book.now) 0 (of_open product) memory.old step.now) }
{
    match step {
        Step::Add(entry) => {
            let answer = product.add(memory, book, entry.into());
            answered(product, answer)
        }
        Step::Replace { block, entry } => {
            let answer = product.replace(memory, book, *block, entry.into());
            answered(product, answer)
        }
        Step::Withdraw { block } => {
            let answer = product.withdraw(memory, book, *block);
            answered(product, answer)
        }
        Step::Close => close_step(product, memory, book),
        Step::Reopen | Step::Send => (State::Opened(product), Told::NotAllowed),
    }
}

fn close_step<B: Book>(product: Open, memory: &mut [u8], book: &B) -> (State, Told)
    ensures { ◌≡◌ {A = Scene} (record { told = result.1; product = product_in result.0; memory = memory.new; put = [] }) (calls (B.meaning book.now) (of_open product) memory.old closes) }
{
    match product.close(memory, book) {
        Ok(closed) => made(State::Shut(closed)),
        Err(Kept { product, refusal }) => (State::Opened(product), Told::Refused(refusal)),
    }
}

// Beside `close_step`: one tail for both takes two `From` impls for `State` and a contract by the relations of `Into`, four times the
// lines that it saves here.
fn reopen_step<B: Book>(product: Closed, memory: &mut [u8], book: &B) -> (State, Told)
    ensures { ◌≡◌ {A = Scene} (record { told = result.1; product = product_in result.0; memory = memory.new; put = [] }) (calls (B.meaning book.now) (of_closed product) memory.old reopens) }
{
    match product.reopen(memory, book) {
        Ok(opened) => made(State::Opened(opened)),
        Err(Kept { product, refusal }) => (State::Shut(product), Told::Refused(refusal)),
    }
}

fn play_closed<B: Book, S: Sink>(
    product: Closed,
    step: &Step,
    memory: &mut [u8],
    book: &B,
    sink: &mut S,
) -> (State, Told)
    ensures told { result.1 ≡ (played (B.meaning book.now) (S.Sink.room sink.old) (of_closed product) memory.old step.now).told }
    ensures product { product_in result.0 ≡ (played (B.meaning book.now) (S.Sink.room sink.old) (of_closed product) memory.old step.now).product }
    ensures after { memory.new ≡ (played (B.meaning book.now) (S.Sink.room sink.old) (of_closed product) memory.old step.now).memory }
    ensures sunk { Sunk S.Sink.taken S.Sink.room S.Sink.wrote sink.old (played (B.meaning book.now) (S.Sink.room sink.old) (of_closed product) memory.old step.now).put sink.new result.1 }
{
    match step {
        Step::Reopen => reopen_step(product, memory, book),
        Step::Send => match send(&product, memory, book, sink) {
            Ok(pairs) => (State::Shut(product), Told::Sent { pairs }),
            Err(refusal) => (State::Shut(product), Told::Refused(refusal)),
        },
        _ => (State::Shut(product), Told::NotAllowed),
    }
}

/// Makes the call of a step, or passes over one that the product's state does not allow.
pub fn play<B: Book, S: Sink>(
    state: State,
    step: &Step,
    memory: &mut [u8],
    book: &B,
    sink: &mut S,
) -> (State, Told)
    ensures known { TypedIn (product_in state).phase step.now }
    ensures told { result.1 ≡ (played (B.meaning book.now) (S.Sink.room sink.old) (product_in state) memory.old step.now).told }
    ensures product { product_in result.0 ≡ (played (B.meaning book.now) (S.Sink.room sink.old) (product_in state) memory.old step.now).product }
    ensures after { memory.new ≡ (played (B.meaning book.now) (S.Sink.room sink.old) (product_in state) memory.old step.now).memory }
    ensures sunk { Sunk S.Sink.taken S.Sink.room S.Sink.wrote sink.old (played (B.meaning book.now) (S.Sink.room sink.old) (product_in state) memory.old step.now).put sink.new result.1 }
{
    match state {
        State::Opened(product) => play_open(product, step, memory, book),
        State::Shut(product) => play_closed(product, step, memory, book, sink),
    }
}
