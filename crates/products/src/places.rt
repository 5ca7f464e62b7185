// Blocks put into the memory of a product.
ghost use Rattle.books.specs.Books.{weighed};
ghost use Rattle.memory.specs.Laid.{spliced, rewritten};
ghost use Rattle.products.specs.Calls.{crowded, bars_adding, bars_replacing};
ghost use Rattle.products.specs.Closings.{end_of};
ghost use Rattle.judging.specs.declared.faults.Refusal.TheVariants.{NoRoom};
ghost use Rattle.records.specs.Asked.{asked};
ghost use Rattle.records.specs.Drafts.{drafts};
ghost use Rattle.records.specs.Records.{block_writing, block_of};
ghost use Rattle.std.specs.Prelude.{◌≡◌, suc, ◌+◌, ◌-◌, ◌≤◌, [], length, take, Ok};
ghost use Rattle.wire.specs.Rows.{start_of};
ghost use Rattle.wire.specs.Steps.{refuse};

use crate::receipt::MOST_BYTES;
use books::book::Book;
use books::plain::PlainWords;
use judging::faults::Refusal;
use judging::places::{END, is_end, is_identification, is_misplaced};
use memory::{Part, make_gap};
use records::drafts::{Draft, Record};
use records::writing::write_block;
use wire::forms::Form;
use wire::modes::Modes;
use wire::rows::skip_blocks;

/// How many bytes the end takes.
pub(crate) fn end_size(form: Form) -> usize
    ensures value { result ≡ length (end_of form) }
    ensures short { result ≤ 6 }
{
    form.fewest_bytes()
}

/// Where a block lies among the bytes of a product.
pub(crate) fn block_part(bytes: &[u8], block: usize) -> Part
    ensures from { result.from ≡ start_of block bytes.now }
    ensures to { result.to ≡ start_of (suc block) bytes.now }
    ensures forward { result.from ≤ result.to }
    ensures within { result.to ≤ length bytes.now }
{
    let rest = skip_blocks(bytes, block);
    let next = skip_blocks(rest, 1);
    Part {
        from: bytes.len() - rest.len(),
        to: bytes.len() - next.len(),
    }
}

/// Refuses a product of so many bytes that has no place for its end.
pub(crate) fn check_room(memory: &[u8], bytes: usize, close: Form) -> Result<(), Refusal>
    requires { bytes ≤ 131072 }
    ensures { result ≡ refuse (crowded memory.now close bytes) NoRoom }
{
    if bytes + end_size(close) > memory.len().min(MOST_BYTES) {
        return Err(Refusal::NoRoom);
    }
    Ok(())
}

/// Whether a record may be added to no product: the identification and the end have their own places.
pub(crate) fn bars_adding(modes: Modes) -> bool
    ensures { result ≡ bars_adding modes.mode modes.submode }
{
    is_identification(modes) || is_end(modes)
}

/// Whether a record may not stand in the place of that block.
pub(crate) fn bars_replacing(block: usize, modes: Modes) -> bool
    ensures { result ≡ bars_replacing block modes.mode modes.submode }
{
    is_misplaced(block, modes) || is_end(modes)
}

// `map_err` here and in `cut`: a `From` would make the refusals rest on `memory`, and be no plainer. That a part lies within
// the product is asked here and not by its type: `make_gap` answers any part, and a type would ask more.
/// Puts the block of a record in the place of a part of a product's bytes, and tells how many it then has.
pub(crate) fn put_block<B: Book>(
    memory: &mut [u8],
    used: usize,
    part: Part,
    given: Record,
    draft: Draft,
    book: &B,
) -> Result<usize, Refusal>
    requires forward { part.from ≤ part.to }
    requires inside { part.to ≤ used }
    requires within { used ≤ length memory.old }
    requires room { (used - (part.to - part.from)) + draft.size ≤ length memory.old }
    requires fits { weighed (block_writing (B.meaning book.now) (drafts draft (asked given))) ≡ Ok draft.size }
    ensures answer { result ≡ Ok ((used - (part.to - part.from)) + draft.size) }
    ensures after { memory.new ≡ rewritten (spliced part.from part.to (block_of (B.meaning book.now) (drafts draft (asked given.entry))) (take used memory.old)) used memory.old }
{
    make_gap(memory, used, part, draft.size).map_err(|_| Refusal::NoRoom)?;
    let from = part.from;
    let place = &mut memory[from..from + draft.size];
    write_block(place, draft.form, given, book)?;
    Ok(used - (part.to - part.from) + draft.size)
}

/// Puts the end behind a product's bytes, and tells how many it then has.
pub(crate) fn put_end(memory: &mut [u8], used: usize, close: Form) -> Result<usize, Refusal>
    requires { used + length (end_of close) ≤ length memory.old }
    ensures answer { result ≡ Ok (used + length (end_of close)) }
    ensures after { memory.new ≡ rewritten (spliced used used (end_of close) (take used memory.old)) used memory.old }
{
    // An empty list is empty data under plain words, whatever the product's book would say of 1/2.
    let given = Record {
        form: close.number(),
        modes: END,
        numbers: &[],
    };
    let draft = Draft {
        form: close,
        size: end_size(close),
    };
    let part = Part {
        from: used,
        to: used,
    };
    put_block(memory, used, part, given, draft, &PlainWords)
}

/// Takes a part out of a product's bytes, and tells how many it then has.
pub(crate) fn cut(memory: &mut [u8], used: usize, part: Part) -> Result<usize, Refusal>
    requires forward { part.from ≤ part.to }
    requires inside { part.to ≤ used }
    requires within { used ≤ length memory.old }
    ensures answer { result ≡ Ok (used - (part.to - part.from)) }
    ensures after { memory.new ≡ rewritten (spliced part.from part.to [] (take used memory.old)) used memory.old }
{
    make_gap(memory, used, part, 0).map_err(|_| Refusal::NoRoom)?;
    Ok(used - (part.to - part.from))
}
