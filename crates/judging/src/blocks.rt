// One block where it stands.
ghost use Rattle.judging.specs.Blocks.{counted_numbers, judged_in, found};
ghost use Rattle.std.specs.Prelude.{◌≡◌, IfOk};
ghost use Rattle.wire.specs.Blocks.{Framed};

use crate::faults::BlockFault;
use crate::places::{Phase, check_place, is_end};
use books::book::Book;
use wire::blocks::{Head, read_head};

/// A block's head and the count of its numbers.
#[derive(Clone, Copy, PartialEq, Eq, Debug)]
pub struct Found {
    pub head: Head,
    pub numbers: usize,
}

/// The end is not put to the book.
fn count_numbers<B: Book>(head: Head, bytes: &[u8], book: &B) -> Result<usize, BlockFault>
    requires { Framed head bytes.now }
    ensures { result ≡ counted_numbers (B.meaning book.now) head bytes.now }
{
    if is_end(head.modes) {
        return Ok(0);
    }
    let field = &bytes[4..head.field_end()];
    Ok(book.judge(head.modes, field)?)
}

/// Judges the block at the front of the bytes in its place in a product of that phase.
#[tactic(auto, unfolding(crate::specs::Blocks::judged_in))]
pub fn judge_block<B: Book>(
    bytes: &[u8],
    phase: Phase,
    block: usize,
    book: &B,
) -> Result<Found, BlockFault>
    ensures value { result ≡ found (judged_in phase (B.meaning book.now) block bytes.now) }
    ensures fits { IfOk result (λ f. Framed f.head bytes.now) }
{
    let head = read_head(bytes)?;
    check_place(phase, block, head)?;
    let numbers = count_numbers(head, bytes, book)?;
    Ok(Found { head, numbers })
}
