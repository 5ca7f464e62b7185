// The facts of a block.
ghost use Rattle.reading.specs.Facts.{told_facts};
ghost use Rattle.reading.specs.Finding.{found_block};
ghost use Rattle.std.specs.Prelude.{◌≡◌};

use books::book::Book;
use judging::blocks::judge_block;
use judging::faults::{Place, ReceiptFault, Refusal};
use judging::places::Phase;
pub use memory::Part;
use products::closed::Closed;
use wire::classes::Class;
use wire::forms::Form;
use wire::modes::Modes;
use wire::rows::skip_blocks;

/// What a product tells of a block.
#[derive(Clone, Copy, PartialEq, Eq, Debug)]
pub struct Facts {
    /// The block's first byte.
    pub at: usize,
    pub form: Form,
    pub modes: Modes,
    pub class: Class,
    /// Where the data field lies.
    pub field: Part,
    /// How many numbers the book reads in the data field: none in the end.
    pub numbers: usize,
}

/// The block behind so many others.
#[tactic(auto, unfolding(crate::specs::Finding::found_block))]
fn find_block<B: Book>(bytes: &[u8], block: usize, book: &B) -> Result<Facts, ReceiptFault>
    ensures { result ≡ found_block (B.meaning book.now) block bytes.now }
{
    let rest = skip_blocks(bytes, block);
    let at = bytes.len() - rest.len();
    let place = Place { block, at };
    let found = place.locate(judge_block(rest, Phase::Shut, block, book))?;
    let head = found.head;
    Ok(Facts {
        at,
        form: head.form,
        modes: head.modes,
        class: Class::from(head.modes),
        field: Part {
            from: at + 4,
            to: at + head.field_end(),
        },
        numbers: found.numbers,
    })
}

/// The facts of a block of a closed product, counted from 0.
pub fn block_facts<B: Book>(
    product: &Closed,
    memory: &[u8],
    book: &B,
    block: usize,
) -> Result<Facts, Refusal>
    ensures { result ≡ told_facts (B.meaning book.now) memory.now product.now block }
{
    product.check_held(memory, book)?;
    if block >= product.blocks() {
        return Err(Refusal::NoSuchBlock);
    }
    Ok(find_block(&memory[0..product.bytes()], block, book)?)
}
