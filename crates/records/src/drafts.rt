// Whether a record may become a block of a product.
ghost use Rattle.records.specs.Drafts.{most_data, drafted, drafts, draft_of};
ghost use Rattle.records.specs.Asked.{asked};
ghost use Rattle.records.specs.Records.{block_writing};
ghost use Rattle.books.specs.Books.{weighed};
ghost use Rattle.wire.specs.Blocks.{most_pairs};
ghost use Rattle.std.specs.Prelude.{◌≡◌, ◌*◌, ◌≤◌, IfOk, Ok};

use books::book::Book;
use books::known::numbers_known;
use judging::faults::{BlockFault, Refusal};
use judging::places::is_astray;
use wire::blocks::{MOST_MODE, MOST_PAIRS, Malformed};
use wire::forms::Form;
use wire::modes::Modes;

/// What a caller wants written: a form by its number, a mode, a submode and a list.
#[derive(Clone, Copy)]
pub struct Record<'a> {
    // Any number: one that no form has is refused.
    pub form: u8,
    pub modes: Modes,
    pub numbers: &'a [i32],
}

/// The form of a record that may be written, and how many bytes its block takes.
#[derive(Clone, Copy, PartialEq, Eq, Debug)]
pub struct Draft {
    pub form: Form,
    pub size: usize,
}

/// The most data bytes of a block of that form.
fn most_data(form: Form) -> usize
    ensures { result ≡ most_data form }
{
    2 * usize::from(MOST_PAIRS.saturating_sub(form.fewest_pairs()))
}

// `misfit` is a test that stands between two others, and differs from call to call: a closure for it would be no plainer.
/// Checks a record that would become that block of a product; `misfit` says that it may not stand there.
#[tactic(auto, unfolding(crate::specs::Drafts::drafted))]
pub fn check_record<B: Book>(
    given: Record,
    block: usize,
    misfit: bool,
    book: &B,
) -> Result<Draft, Refusal>
    ensures value { result ≡ draft_of (B.meaning book.now) (drafted (B.meaning book.now) block misfit (asked given.entry)) }
    ensures fits { IfOk result (λ d. weighed (block_writing (B.meaning book.now) (drafts d (asked given.entry))) ≡ Ok d.size) }
    ensures short { IfOk result (λ d. d.size ≤ 2 * most_pairs) }
{
    numbers_known(given.numbers);
    let form = Form::try_from(u16::from(given.form))?;
    if given.modes.mode > MOST_MODE {
        return Err(Refusal::Block(BlockFault::Wire(Malformed::Mode)));
    }
    if misfit {
        return Err(Refusal::Block(BlockFault::Misplaced));
    }
    if is_astray(block, given.modes) {
        return Err(Refusal::Block(BlockFault::LateDefinition));
    }
    let weight = book.weigh(given.modes, given.numbers)?;
    if weight > most_data(form) {
        return Err(Refusal::DataTooLong);
    }
    let size = form.fewest_bytes() + weight;
    Ok(Draft { form, size })
}
