// A closed product: three numbers beside the memory that holds it.
ghost use Rattle.products.specs.Products.{of_closed, tally_of};
ghost use Rattle.std.specs.Prelude.{◌≡◌};

use crate::tally::Tally;
use wire::forms::Form;

/// A closed product. Its bytes are the first of the memory that is given with each call.
// Numbers beside a memory, and no buffer: the memory is the caller's. See `Open` for why the two are two types.
#[derive(Drop)]
pub struct Closed {
    pub(crate) bytes: usize,
    pub(crate) blocks: usize,
    pub(crate) close: Form,
}

impl Closed {
    pub fn bytes(&self) -> usize
        ensures { result ≡ self.now.bytes }
    {
        self.bytes
    }

    /// The number of blocks, the end counted.
    pub fn blocks(&self) -> usize
        ensures { result ≡ self.now.blocks }
    {
        self.blocks
    }

    /// The closing form: that of the end.
    pub fn close(&self) -> Form
        ensures { result ≡ self.now.close }
    {
        self.close
    }

    /// Its bytes, its blocks with the end, and its closing form.
    pub fn tally(&self) -> Tally
        ensures { result ≡ tally_of (of_closed self.now) }
    {
        Tally {
            bytes: self.bytes,
            blocks: self.blocks,
            close: self.close,
        }
    }
}
