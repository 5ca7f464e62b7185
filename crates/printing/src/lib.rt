// The lines of a closed product, or of a refusal, printed to a writer.
#![tactic(auto)]

ghost use Rattle.lines.specs.Listing.{line_of};
ghost use Rattle.lines.specs.Refusals.{refusal_line};
ghost use Rattle.printing.specs.Printing.{Prints, PrintsAll};
ghost use Rattle.std.specs.Prelude.{suc, OnOk, Ok};

use anyhow::anyhow;
use books::book::Book;
use judging::faults::{ReceiptFault, Refusal};
use lines::listing::write_line;
use lines::refusals::write_refusal;
use products::closed::Closed;
use std::io::Write;

/// More than any line has.
const LINE_BYTES: usize = 256;

fn no_line(refusal: Refusal) -> anyhow::Error {
    anyhow!("no line: refused={}", refusal.number())
}

// By `write_line` and not by `Display` of a line, of which something is promised only where it answers `Ok`.
/// Prints line 0, the product's, or line k, that of block k - 1.
pub fn print_line<W: Write, B: Book>(
    output: &mut W,
    product: &Closed,
    memory: &[u8],
    book: &B,
    number: usize,
) -> anyhow::Result<()>
    ensures { OnOk result (Prints (W.contents output.old) (W.contents output.new) (line_of (B.meaning book.now) memory.now product.now number)) }
{
    let mut line = [0; LINE_BYTES];
    let length = write_line(product, memory, book, number, &mut line).map_err(no_line)?;
    Ok(output.write_all(&line[..length])?)
}

/// Prints all lines of a closed product.
pub fn print_listing<W: Write, B: Book>(
    output: &mut W,
    product: &Closed,
    memory: &[u8],
    book: &B,
) -> anyhow::Result<()>
    ensures { OnOk result (PrintsAll (W.contents output.old) (W.contents output.new) (line_of (B.meaning book.now) memory.now product.now) (suc product.now.blocks)) }
{
    for number in 0..=product.blocks() {
        print_line(output, product, memory, book, number)?;
    }
    Ok(())
}

/// Prints the line of a refused product.
pub fn print_refusal<W: Write>(output: &mut W, refused: ReceiptFault) -> anyhow::Result<()>
    ensures { OnOk result (Prints (W.contents output.old) (W.contents output.new) (Ok (refusal_line refused))) }
{
    let mut line = [0; LINE_BYTES];
    let length = write_refusal(refused, &mut line).map_err(no_line)?;
    Ok(output.write_all(&line[..length])?)
}
