// The sending of a closed product.
#![tactic(auto)]

ghost use Rattle.sending.specs.Sending.{pairs_in, sending};
ghost use Rattle.sinks.specs.Sinks.{Took};
ghost use Rattle.std.specs.Prelude.{◌≡◌, MatchResult};

use books::book::Book;
use judging::faults::Refusal;
use products::closed::Closed;
use sinks::sending::put_all;
use sinks::sink::Sink;

/// Puts all pairs of a closed product into a sink, first to last, and tells their number.
// A hint: where it stands apart from its caller, what a sink holds is behind a pointer, and each pair is put by itself.
#[tactic(auto, unfolding(crate::specs::Sending::sending))]
#[inline]
pub fn send<B: Book, S: Sink>(
    product: &Closed,
    memory: &[u8],
    book: &B,
    sink: &mut S,
) -> Result<usize, Refusal>
    ensures answer { result ≡ sending (B.meaning book.now) memory.now product.now (S.Sink.room sink.old) }
    ensures after { MatchResult result (λ _. Took S.Sink.taken S.Sink.room S.Sink.wrote sink.old (pairs_in memory.now product.now) sink.new) (λ _. sink.new ≡ sink.old) }
{
    product.check_held(memory, book)?;
    put_all(&memory[0..product.bytes()], sink).map_err(|_| Refusal::SinkFull)
}
