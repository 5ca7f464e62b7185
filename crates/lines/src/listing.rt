// The lines of a closed product.
ghost use Rattle.lines.specs.Listing.{product_line, block_line, line_of};
ghost use Rattle.lines.specs.Putting.{put_answer, put_after};
ghost use Rattle.std.specs.Prelude.{◌≡◌};

use books::book::Book;
use judging::faults::Refusal;
use products::closed::Closed;
use reading::facts::block_facts;
use text::lines::{BlockLine, Line, ProductLine};

fn line_of_product<B: Book>(product: &Closed, memory: &[u8], book: &B) -> Result<Line, Refusal>
    ensures { result ≡ product_line (B.meaning book.now) memory.now product.now }
{
    product.check_held(memory, book)?;
    Ok(Line::Product(ProductLine {
        bytes: product.bytes(),
        blocks: product.blocks(),
        close: product.close().number(),
    }))
}

fn line_of_block<B: Book>(
    product: &Closed,
    memory: &[u8],
    book: &B,
    block: usize,
) -> Result<Line, Refusal>
    ensures { result ≡ block_line (B.meaning book.now) memory.now product.now block }
{
    let facts = block_facts(product, memory, book, block)?;
    Ok(Line::Block(BlockLine {
        block,
        at: facts.at,
        form: facts.form.number(),
        modes: facts.modes,
        class: facts.class,
        numbers: facts.numbers,
    }))
}

/// Line 0, the product's, or line k, that of block k - 1.
// A number says which line: callers count the lines of a product from 0 on, and a type for the two would be made from it here.
pub fn line<B: Book>(
    product: &Closed,
    memory: &[u8],
    book: &B,
    number: usize,
) -> Result<Line, Refusal>
    ensures { result ≡ line_of (B.meaning book.now) memory.now product.now number }
{
    if number == 0 {
        line_of_product(product, memory, book)
    } else {
        line_of_block(product, memory, book, number - 1)
    }
}

// Into the caller's memory, as `Line::write` does: nothing is allocated here.
/// Writes that line at the front of `out` and tells its length.
pub fn write_line<B: Book>(
    product: &Closed,
    memory: &[u8],
    book: &B,
    number: usize,
    out: &mut [u8],
) -> Result<usize, Refusal>
    ensures answer { result ≡ put_answer (line_of (B.meaning book.now) memory.now product.now number) out.old }
    ensures after { out.new ≡ put_after (line_of (B.meaning book.now) memory.now product.now number) out.old }
{
    let line = line(product, memory, book, number)?;
    line.write(out).ok_or(Refusal::NoRoom)
}
