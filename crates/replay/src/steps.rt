// The steps of a life, and what each is told.
ghost use Rattle.products.specs.Products.{tally_of};
ghost use Rattle.replay.specs.declared.steps.Told.TheVariants.{Made};
ghost use Rattle.std.specs.Prelude.{◌≡◌};

use crate::entries::Entry;
use judging::faults::Refusal;
use products::closed::Closed;
use products::opened::Open;
use products::tally::Tally;

/// A product in its life.
#[derive(Drop)]
pub enum State {
    Opened(Open),
    Shut(Closed),
}

impl State {
    ghost use Rattle.replay.specs.States.{product_in};

    /// Its bytes, its blocks, the end counted where it has one, and its closing form.
    pub fn tally(&self) -> Tally
        ensures { result ≡ tally_of (product_in self.now) }
    {
        match self {
            State::Opened(product) => product.tally(),
            State::Shut(product) => product.tally(),
        }
    }
}

/// A call on a product that there is.
#[derive(Drop)]
pub enum Step {
    Add(Entry),
    /// A block, and what shall stand in its place.
    Replace { block: usize, entry: Entry },
    Withdraw { block: usize },
    Close,
    Reopen,
    Send,
}

/// What came of a step.
// One enum, and no `Result`: it is what a list of steps is told, in which a step that was passed over or turned down is no failure
// of the play.
#[derive(Clone, Copy, PartialEq, Eq, Debug)]
pub enum Told {
    /// The product's state has no such call: the step was passed over.
    NotAllowed,
    Refused(Refusal),
    /// The product then has so many bytes and blocks.
    Made { bytes: usize, blocks: usize },
    /// So many pairs were sent.
    Sent { pairs: usize },
}

impl From<Tally> for Told {
    ghost from_gives = { λ tally told. told ≡ Made tally.bytes tally.blocks };

    fn from(tally: Tally) -> Told {
        Told::Made {
            bytes: tally.bytes,
            blocks: tally.blocks,
        }
    }
}
