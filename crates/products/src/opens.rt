// The blocks of an open product, read again.
ghost use Rattle.products.specs.Opens.{open_walk, open_receipt, passes};
ghost use Rattle.products.specs.Receipts.{most_bytes, most_blocks};
ghost use Rattle.std.specs.Prelude.{◌≡◌, ◌≤◌, length, OnOk};

use crate::receipt::{MOST_BLOCKS, check_count};
use books::book::Book;
use judging::blocks::judge_block;
use judging::faults::{BlockFault, Place, ReceiptFault};
use judging::places::Phase;

// Apart from the walk of a receipt: this one goes by the count of blocks and the other to the end, and the places at
// which they tell 13 and 14 differ. `at` is the byte that a fault tells, and no index of an element.
fn walk_open<B: Book>(bytes: &[u8], blocks: usize, book: &B) -> Result<(), ReceiptFault>
    ensures { result ≡ passes (open_walk (B.meaning book.now) blocks 0 0 0 0 bytes.now) }
{
    let mut at = 0;
    let mut last = Place { block: 0, at };
    for block in 0..blocks {
        let place = Place { block, at };
        if block >= MOST_BLOCKS {
            return Err(place.fault(BlockFault::TooManyBlocks));
        }
        let found = place.locate(judge_block(&bytes[at..], Phase::Opened, block, book))?;
        at += found.head.size();
        last = place;
    }
    if at < bytes.len() {
        return Err(last.fault(BlockFault::Leftover));
    }
    Ok(())
}

/// Judges every block of the open product in the first `count` bytes of the memory, which has so many blocks.
#[tactic(auto, unfolding(crate::specs::Opens::open_receipt))]
pub fn receive_open<B: Book>(
    memory: &[u8],
    count: usize,
    blocks: usize,
    book: &B,
) -> Result<(), ReceiptFault>
    ensures value { result ≡ passes (open_receipt (B.meaning book.now) memory.now count blocks) }
    ensures within { OnOk result (count ≤ length memory.now) }
    ensures short { OnOk result (count ≤ most_bytes) }
    ensures few { OnOk result (blocks ≤ most_blocks) }
{
    check_count(memory.len(), count)?;
    walk_open(&memory[0..count], blocks, book)
}
