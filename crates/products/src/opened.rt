// An open product: three numbers beside the memory that holds it.
ghost use Rattle.products.specs.Products.{of_open, tally_of};
ghost use Rattle.std.specs.Prelude.{◌≡◌};

use crate::tally::Tally;
use wire::forms::Form;

/// An open product, which has no end yet. Its bytes are the first of the memory that is given with each call.
// Apart from `Closed`, though the numbers are the same: a type for each state, with its own calls, so that a call in the
// wrong state does not compile. One type over a state would carry a marker through every definition, and a `Tally` in each
// would stand between every definition and its number: no plainer.
#[derive(Drop)]
pub struct Open {
    pub(crate) bytes: usize,
    pub(crate) blocks: usize,
    pub(crate) close: Form,
}

impl Open {
    /// Its bytes, its blocks, and its closing form.
    pub fn tally(&self) -> Tally
        ensures { result ≡ tally_of (of_open self.now) }
    {
        Tally {
            bytes: self.bytes,
            blocks: self.blocks,
            close: self.close,
        }
    }
}
