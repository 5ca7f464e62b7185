// The calls that start, mend, close and reopen a product.
// Memory and book are arguments of each: the memory is lent anew every time, and a struct of both would be made and
// taken apart at each call. Forms are given as any number: one that no form has is refused.
// `start` takes three numbers and lists where a script has an `Opening`: that owns its list, and a call needs no heap.
ghost use Rattle.products.specs.Answers.{Mends, memory_after, opened_by, closed_by, shut_by, reopened_by};
ghost use Rattle.products.specs.Calls.{outcome, started, adds, replaces, withdraws, closes, reopens};
ghost use Rattle.products.specs.Plans.{Planned, Ready};
ghost use Rattle.products.specs.Products.{of_open, of_closed};
ghost use Rattle.products.specs.Closings.{end_of};
ghost use Rattle.products.specs.Opens.{passes};
ghost use Rattle.records.specs.Asked.{asked};
ghost use Rattle.std.specs.Prelude.{◌≡◌, suc, ◌-◌, ◌≤◌, [], IfOk, OnOk};

use crate::closed::Closed;
use crate::kept::Kept;
use crate::opened::Open;
use crate::places::{
    bars_adding, bars_replacing, block_part, check_room, cut, end_size, put_block, put_end,
};
use crate::receipt::MOST_BLOCKS;
use books::book::Book;
use judging::faults::{BlockFault, Refusal};
use judging::places::IDENTIFICATION;
use memory::Part;
use records::drafts::{Draft, Record, check_record};
use wire::forms::Form;

impl Open {
    #[tactic(auto, unfolding(crate::specs::Calls::outcome, crate::specs::Calls::mended))]
    fn check_add<B: Book>(&self, memory: &[u8], book: &B, given: Record) -> Result<Draft, Refusal>
        ensures answer { passes result ≡ passes (outcome (B.meaning book.now) memory.now (of_open self.now) (adds (asked given.entry))) }
        ensures ready { IfOk result (λ d. Ready (B.meaning book.now) memory.now (of_open self.now) (adds (asked given.entry)) d (asked given.entry) self.now.bytes self.now.bytes (suc self.now.blocks)) }
    {
        self.check_held(memory, book)?;
        let misfit = bars_adding(given.modes);
        let draft = check_record(given, self.blocks, misfit, book)?;
        if self.blocks >= MOST_BLOCKS - 1 {
            return Err(Refusal::NoMoreBlocks);
        }
        check_room(memory, self.bytes + draft.size, self.close)?;
        Ok(draft)
    }

    /// Appends a record as the last block.
    pub fn add<B: Book>(
        &mut self,
        memory: &mut [u8],
        book: &B,
        given: Record,
    ) -> Result<(), Refusal>
        ensures { Mends (B.meaning book.now) memory.old (of_open self.old) (adds (asked given.entry)) result (of_open self.new) memory.new }
    {
        let draft = self.check_add(memory, book, given)?;
        let part = Part {
            from: self.bytes,
            to: self.bytes,
        };
        self.bytes = put_block(memory, self.bytes, part, given, draft, book)?;
        self.blocks += 1;
        Ok(())
    }

    #[tactic(auto, unfolding(crate::specs::Calls::outcome, crate::specs::Calls::mended))]
    fn check_replace<B: Book>(
        &self,
        memory: &[u8],
        book: &B,
        block: usize,
        given: Record,
    ) -> Result<(Part, Draft), Refusal>
        ensures answer { passes result ≡ passes (outcome (B.meaning book.now) memory.now (of_open self.now) (replaces block (asked given.entry))) }
        ensures ready { IfOk result (λ t. Ready (B.meaning book.now) memory.now (of_open self.now) (replaces block (asked given.entry)) t.1 (asked given.entry) t.0.from t.0.to self.now.blocks) }
    {
        self.check_held(memory, book)?;
        if block >= self.blocks {
            return Err(Refusal::NoSuchBlock);
        }
        let misfit = bars_replacing(block, given.modes);
        let draft = check_record(given, block, misfit, book)?;
        let part = block_part(&memory[0..self.bytes], block);
        let bytes = self.bytes - (part.to - part.from) + draft.size;
        check_room(memory, bytes, self.close)?;
        Ok((part, draft))
    }

    /// Puts a record in the place of a block, counted from 0.
    pub fn replace<B: Book>(
        &mut self,
        memory: &mut [u8],
        book: &B,
        block: usize,
        given: Record,
    ) -> Result<(), Refusal>
        ensures { Mends (B.meaning book.now) memory.old (of_open self.old) (replaces block (asked given.entry)) result (of_open self.new) memory.new }
    {
        let (part, draft) = self.check_replace(memory, book, block, given)?;
        self.bytes = put_block(memory, self.bytes, part, given, draft, book)?;
        Ok(())
    }

    #[tactic(auto, unfolding(crate::specs::Calls::outcome, crate::specs::Calls::mended))]
    fn check_withdraw<B: Book>(
        &self,
        memory: &[u8],
        book: &B,
        block: usize,
    ) -> Result<Part, Refusal>
        ensures answer { passes result ≡ passes (outcome (B.meaning book.now) memory.now (of_open self.now) (withdraws block)) }
        ensures ready { IfOk result (λ part. Planned (B.meaning book.now) memory.now (of_open self.now) (withdraws block) [] part.from part.to (self.now.blocks - 1)) }
        ensures some { OnOk result (1 ≤ self.now.blocks) }
    {
        self.check_held(memory, book)?;
        if block >= self.blocks {
            return Err(Refusal::NoSuchBlock);
        }
        if block == 0 {
            return Err(Refusal::Block(BlockFault::Misplaced));
        }
        Ok(block_part(&memory[0..self.bytes], block))
    }

    /// Takes a block out, counted from 0; those behind it move up.
    pub fn withdraw<B: Book>(
        &mut self,
        memory: &mut [u8],
        book: &B,
        block: usize,
    ) -> Result<(), Refusal>
        ensures { Mends (B.meaning book.now) memory.old (of_open self.old) (withdraws block) result (of_open self.new) memory.new }
    {
        let part = self.check_withdraw(memory, book, block)?;
        self.bytes = cut(memory, self.bytes, part)?;
        self.blocks -= 1;
        Ok(())
    }

    /// Starts a product of one block, the identification, with the form that its end will have.
    #[tactic(auto, unfolding(crate::specs::Calls::started))]
    pub fn start<B: Book>(
        memory: &mut [u8],
        book: &B,
        closing: u8,
        form: u8,
        numbers: &[i32],
    ) -> Result<Open, Refusal>
        ensures answer { result ≡ opened_by (started (B.meaning book.now) memory.old closing form numbers.now) }
        ensures after { memory.new ≡ memory_after (started (B.meaning book.now) memory.old closing form numbers.now) memory.old }
    {
        let close = Form::try_from(u16::from(closing))?;
        let given = Record {
            form,
            modes: IDENTIFICATION,
            numbers,
        };
        let draft = check_record(given, 0, false, book)?;
        check_room(memory, draft.size, close)?;
        let part = Part { from: 0, to: 0 };
        let bytes = put_block(memory, 0, part, given, draft, book)?;
        Ok(Open {
            bytes,
            blocks: 1,
            close,
        })
    }

    #[tactic(auto, unfolding(crate::specs::Calls::outcome))]
    fn check_close<B: Book>(&self, memory: &[u8], book: &B) -> Result<(), Refusal>
        ensures answer { result ≡ passes (outcome (B.meaning book.now) memory.now (of_open self.now) closes) }
        ensures ready { OnOk result (Planned (B.meaning book.now) memory.now (of_open self.now) closes (end_of self.now.close) self.now.bytes self.now.bytes (suc self.now.blocks)) }
    {
        self.check_held(memory, book)?;
        check_room(memory, self.bytes, self.close)
    }

    fn shut<B: Book>(&self, memory: &mut [u8], book: &B) -> Result<Closed, Refusal>
        ensures answer { result ≡ closed_by (outcome (B.meaning book.now) memory.old (of_open self.now) closes) }
        ensures after { memory.new ≡ memory_after (outcome (B.meaning book.now) memory.old (of_open self.now) closes) memory.old }
    {
        self.check_close(memory, book)?;
        let bytes = put_end(memory, self.bytes, self.close)?;
        Ok(Closed {
            bytes,
            blocks: self.blocks + 1,
            close: self.close,
        })
    }

    /// Writes the end, or hands the product back.
    pub fn close<B: Book>(self, memory: &mut [u8], book: &B) -> Result<Closed, Kept<Open>>
        ensures answer { result ≡ shut_by (outcome (B.meaning book.now) memory.old (of_open self) closes) self }
        ensures after { memory.new ≡ memory_after (outcome (B.meaning book.now) memory.old (of_open self) closes) memory.old }
    {
        self.shut(memory, book).map_err(|refusal| Kept {
            product: self,
            refusal,
        })
    }
}

impl Closed {
    fn opened<B: Book>(&self, memory: &mut [u8], book: &B) -> Result<Open, Refusal>
        ensures answer { result ≡ opened_by (outcome (B.meaning book.now) memory.old (of_closed self.now) reopens) }
        ensures after { memory.new ≡ memory_after (outcome (B.meaning book.now) memory.old (of_closed self.now) reopens) memory.old }
    {
        self.check_held(memory, book)?;
        let part = Part {
            from: self.bytes - end_size(self.close),
            to: self.bytes,
        };
        let bytes = cut(memory, self.bytes, part)?;
        Ok(Open {
            bytes,
            blocks: self.blocks - 1,
            close: self.close,
        })
    }

    /// Removes the end, or hands the product back.
    pub fn reopen<B: Book>(self, memory: &mut [u8], book: &B) -> Result<Open, Kept<Closed>>
        ensures answer { result ≡ reopened_by (outcome (B.meaning book.now) memory.old (of_closed self) reopens) self }
        ensures after { memory.new ≡ memory_after (outcome (B.meaning book.now) memory.old (of_closed self) reopens) memory.old }
    {
        self.opened(memory, book).map_err(|refusal| Kept {
            product: self,
            refusal,
        })
    }
}
