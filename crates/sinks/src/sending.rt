// All pairs of a row of bytes, or none.
ghost use Rattle.sinks.specs.Cells.{octal_line, places};
ghost use Rattle.sinks.specs.Sinks.{Took, laid, sent};
ghost use Rattle.wire.specs.Pairs.{pair_bytes, pairs};
ghost use Rattle.std.specs.Prelude.{◌≡◌, length, MatchResult};

use crate::bytes::TwoBytes;
use crate::cells::{Cell, CellSink};
use crate::octal::OctalLine;
use crate::sink::{Full, Sink};
use wire::pairs::worth;

/// Puts all pairs, first to last, and tells their number; a sink without space for them all stays as it is.
pub fn put_all<S: Sink>(bytes: &[u8], sink: &mut S) -> Result<usize, Full>
    ensures answer { result ≡ sent (S.Sink.room sink.old) (length (pairs bytes.now)) }
    ensures after { MatchResult result (λ _. Took S.Sink.taken S.Sink.room S.Sink.wrote sink.old (pairs bytes.now) sink.new) (λ _. sink.new ≡ sink.old) }
{
    let count = bytes.len() / 2;
    if sink.space() < count {
        return Err(Full);
    }
    for two in bytes.chunks_exact(2) {
        sink.put(worth(two[0], two[1]))?;
    }
    Ok(count)
}

/// Puts all pairs into the first cells of `out` and tells their number, or leaves it as it is.
fn fill<C: Cell<WIDTH> + Drop, const WIDTH: usize>(
    bytes: &[u8],
    out: &mut [u8],
) -> Result<usize, Full>
    ensures answer { result ≡ sent (places WIDTH 0 (length out.old)) (length (pairs bytes.now)) }
    ensures memory { out.new ≡ laid WIDTH C.cell (pairs bytes.now) out.old }
{
    put_all(bytes, &mut CellSink::<C, WIDTH>::new(out))
}

// This and the next are names of `fill` for callers who want no type arguments.
/// Writes all pairs as lines into `out` and tells their number, or leaves it as it is.
pub fn print_pairs(bytes: &[u8], out: &mut [u8]) -> Result<usize, Full>
    ensures answer { result ≡ sent (places 7 0 (length out.old)) (length (pairs bytes.now)) }
    ensures memory { out.new ≡ laid 7 octal_line (pairs bytes.now) out.old }
{
    fill::<OctalLine, 7>(bytes, out)
}

/// Copies all pairs into `out` and tells their number, or leaves it as it is.
pub fn store_pairs(bytes: &[u8], out: &mut [u8]) -> Result<usize, Full>
    ensures answer { result ≡ sent (places 2 0 (length out.old)) (length (pairs bytes.now)) }
    ensures memory { out.new ≡ laid 2 pair_bytes (pairs bytes.now) out.old }
{
    fill::<TwoBytes, 2>(bytes, out)
}
