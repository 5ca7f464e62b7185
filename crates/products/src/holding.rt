// Whether a memory holds a product.
// That a held product lies within the memory stands in a clause of each function here: no type holds both.
ghost use Rattle.products.specs.Holding.{is_held, held_open};
ghost use Rattle.products.specs.Closings.{end_of};
ghost use Rattle.products.specs.Opens.{passes};
ghost use Rattle.products.specs.Receipts.{most_bytes, most_blocks};
ghost use Rattle.std.specs.Prelude.{◌≡◌, ◌≤◌, length, OnOk};

use crate::closed::Closed;
use crate::opened::Open;
use crate::opens::receive_open;
use books::book::Book;
use judging::faults::{BlockFault, Place, Refusal};

impl Closed {
    /// Whether the memory holds this product: it is received again, with the same blocks and closing form.
    #[tactic(auto, unfolding(crate::specs::Holding::held))]
    pub fn check_held<B: Book>(&self, memory: &[u8], book: &B) -> Result<(), Refusal>
        ensures value { result ≡ is_held (B.meaning book.now) memory.now self.now }
        ensures within { OnOk result (self.now.bytes ≤ length memory.now) }
        ensures ended { OnOk result (length (end_of self.now.close) ≤ self.now.bytes) }
        ensures some { OnOk result (1 ≤ self.now.blocks) }
    {
        let found = Closed::receive(memory, self.bytes, book)?;
        if found.blocks != self.blocks || found.close != self.close {
            let last = Place {
                block: found.blocks - 1,
                at: self.bytes.saturating_sub(found.close.fewest_bytes()),
            };
            return Err(Refusal::NotHeld(last.fault(BlockFault::Leftover)));
        }
        Ok(())
    }
}

impl Open {
    /// Whether the memory holds this product: its bytes are read again as so many blocks, and no end.
    pub fn check_held<B: Book>(&self, memory: &[u8], book: &B) -> Result<(), Refusal>
        ensures value { result ≡ passes (held_open (B.meaning book.now) memory.now self.now) }
        ensures within { OnOk result (self.now.bytes ≤ length memory.now) }
        ensures short { OnOk result (self.now.bytes ≤ most_bytes) }
        ensures few { OnOk result (self.now.blocks ≤ most_blocks) }
    {
        Ok(receive_open(memory, self.bytes, self.blocks, book)?)
    }
}
