// A life, from its beginning through all steps.
ghost use Rattle.replay.specs.Replays.{run_told, places_after, replayed, ends_in, ends_with, tells, Sank, Lived};
ghost use Rattle.replay.specs.States.{product_in};
ghost use Rattle.sinks.specs.Sinks.{Took};
ghost use Rattle.std.specs.Prelude.{◌≡◌, IfOk};

use crate::beginning::{Beginning, NotBegun, begin};
use crate::playing::play;
use crate::steps::{State, Step, Told};
use books::book::Book;
use sinks::sink::Sink;

/// Plays the steps on a product that there is, as many as there are places to tell what came of them.
fn play_all<B: Book, S: Sink>(
    start: State,
    steps: &[Step],
    told: &mut [Told],
    memory: &mut [u8],
    book: &B,
    sink: &mut S,
) -> State
    ensures told { told.new ≡ places_after (run_told (B.meaning book.now) (S.Sink.room sink.old) (product_in start) memory.old steps.now told.old) told.old }
    ensures product { product_in result ≡ (run_told (B.meaning book.now) (S.Sink.room sink.old) (product_in start) memory.old steps.now told.old).product }
    ensures after { memory.new ≡ (run_told (B.meaning book.now) (S.Sink.room sink.old) (product_in start) memory.old steps.now told.old).memory }
    ensures took { Took S.Sink.taken S.Sink.room S.Sink.wrote sink.old (run_told (B.meaning book.now) (S.Sink.room sink.old) (product_in start) memory.old steps.now told.old).put sink.new }
    ensures lived { Lived S.Sink.taken S.Sink.room (B.meaning book.now) sink.old (product_in start) memory.old sink.old → Lived S.Sink.taken S.Sink.room (B.meaning book.now) sink.old (product_in result) memory.new sink.new }
{
    let mut state = start;
    // For its promise alone: that a sink which takes nothing is as it was.
    let _ = sink.space();
    // By index: after a `zip` of `iter_mut` a proof knows nothing of the place.
    for (index, place) in told.iter_mut().enumerate() {
        let Some(step) = steps.get(index) else {
            break;
        };
        let (next, what) = play(state, step, memory, book, sink);
        state = next;
        *place = what;
    }
    state
}

// What came of the steps goes into places that the caller has: nothing is allocated here.
/// Begins a life and plays the steps, as many as there are places to tell what came of them.
pub fn replay<B: Book, S: Sink>(
    beginning: &Beginning,
    steps: &[Step],
    told: &mut [Told],
    memory: &mut [u8],
    book: &B,
    sink: &mut S,
) -> Result<State, NotBegun>
    ensures answer { result ≡ ends_in (replayed (B.meaning book.now) (S.Sink.room sink.old) memory.old beginning.now steps.now told.old) }
    ensures after { memory.new ≡ ends_with (replayed (B.meaning book.now) (S.Sink.room sink.old) memory.old beginning.now steps.now told.old) memory.old }
    ensures told { told.new ≡ tells (replayed (B.meaning book.now) (S.Sink.room sink.old) memory.old beginning.now steps.now told.old) told.old }
    ensures sunk { Sank S.Sink.taken S.Sink.room S.Sink.wrote (replayed (B.meaning book.now) (S.Sink.room sink.old) memory.old beginning.now steps.now told.old) sink.old sink.new }
    ensures lived { IfOk result (λ state. Lived S.Sink.taken S.Sink.room (B.meaning book.now) sink.old (product_in state) memory.new sink.new) }
{
    let state = begin(beginning, memory, book)?;
    Ok(play_all(state, steps, told, memory, book, sink))
}
