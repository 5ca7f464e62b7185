// The receipt of a product.
ghost use Rattle.products.specs.Receipts.{most_bytes, most_blocks, counted, closed_walk, closed_as, received};
ghost use Rattle.products.specs.Closings.{AsWritten};
ghost use Rattle.std.specs.Prelude.{◌≡◌, ◌≤◌, length, IfOk};

use crate::closed::Closed;
use books::book::Book;
use judging::blocks::judge_block;
use judging::faults::{BlockFault, Place, ReceiptFault};
use judging::places::{Phase, is_end};

/// The most bytes of a product.
pub const MOST_BYTES: usize = 65_536;

/// The most blocks of a product, the end counted.
pub const MOST_BLOCKS: usize = 1_024;

pub(crate) fn check_count(size: usize, count: usize) -> Result<(), BlockFault>
    ensures { result ≡ counted size count }
{
    if count > size || count > MOST_BYTES {
        return Err(BlockFault::Count);
    }
    if count % 2 != 0 {
        return Err(BlockFault::OddCount);
    }
    Ok(())
}

// Apart from the walk over an open product, which says why.
fn walk_blocks<B: Book>(bytes: &[u8], book: &B) -> Result<Closed, ReceiptFault>
    ensures { result ≡ closed_as (length bytes.now) 0 (closed_walk (B.meaning book.now) most_blocks 0 0 bytes.now) }
{
    let mut at = 0;
    for block in 0..MOST_BLOCKS {
        let rest = &bytes[at..];
        let place = Place { block, at };
        let head = place
            .locate(judge_block(rest, Phase::Shut, block, book))?
            .head;
        if is_end(head.modes) {
            if head.size() < rest.len() {
                return Err(place.fault(BlockFault::Leftover));
            }
            return Ok(Closed {
                bytes: bytes.len(),
                blocks: block + 1,
                close: head.form,
            });
        }
        at += head.size();
    }
    let place = Place {
        block: MOST_BLOCKS,
        at,
    };
    Err(place.fault(BlockFault::TooManyBlocks))
}

impl Closed {
    /// Receives the product in the first `count` bytes of the memory, judging every block.
    #[tactic(auto, unfolding(crate::specs::Receipts::receipt))]
    pub fn receive<B: Book>(memory: &[u8], count: usize, book: &B) -> Result<Closed, ReceiptFault>
        ensures value { result ≡ received (B.meaning book.now) memory.now count }
        ensures within { IfOk result (λ p. p.bytes ≤ length memory.now) }
        ensures written { IfOk result (AsWritten (B.meaning book.now) memory.now) }
    {
        check_count(memory.len(), count)?;
        walk_blocks(&memory[0..count], book)
    }
}
