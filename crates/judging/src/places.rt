// Where a block may stand in a product.
ghost use Rattle.judging.specs.Places.{defines, is_identification, is_end, misplaced, astray, bars_end, placed_in};
ghost use Rattle.wire.specs.Classes.{class_of};
ghost use Rattle.std.specs.Prelude.{◌≡◌};

use crate::faults::BlockFault;
use wire::blocks::Head;
use wire::classes::Class;
use wire::modes::Modes;

/// Whether a product has its end.
#[derive(Clone, Copy, PartialEq, Eq, Debug)]
pub enum Phase {
    /// It is being mended, and has no end.
    Opened,
    /// The end is its last block.
    Shut,
}

impl Phase {
    fn bars_end(self) -> bool
        ensures { result ≡ bars_end self }
    {
        self == Phase::Opened
    }
}

/// The mode and submode of the identification.
pub const IDENTIFICATION: Modes = Modes {
    mode: 1,
    submode: 1,
};

/// The mode and submode of the end.
pub const END: Modes = Modes {
    mode: 1,
    submode: 2,
};

// This and the next are the definitions' names for two comparisons.
/// Block 1/1.
pub fn is_identification(modes: Modes) -> bool
    ensures { result ≡ is_identification modes.mode modes.submode }
{
    modes == IDENTIFICATION
}

/// Block 1/2.
pub fn is_end(modes: Modes) -> bool
    ensures { result ≡ is_end modes.mode modes.submode }
{
    modes == END
}

/// The identification is not first, or another block is.
#[tactic(auto, unfolding(crate::specs::Places::misplaced))]
pub fn is_misplaced(block: usize, modes: Modes) -> bool
    ensures { result ≡ misplaced block modes.mode modes.submode }
{
    (block == 0) != is_identification(modes)
}

fn is_definition(modes: Modes) -> bool
    ensures { result ≡ defines (class_of modes.mode modes.submode) }
{
    Class::from(modes) == Class::Definition
}

/// A definition that is not block 1.
#[tactic(auto, unfolding(crate::specs::Places::astray))]
pub fn is_astray(block: usize, modes: Modes) -> bool
    ensures { result ≡ astray block modes.mode modes.submode }
{
    is_definition(modes) && block != 1
}

/// Whether the block may stand as that block of a product of that phase.
pub fn check_place(phase: Phase, block: usize, head: Head) -> Result<(), BlockFault>
    ensures { result ≡ placed_in phase block head }
{
    if phase.bars_end() && is_end(head.modes) {
        return Err(BlockFault::Misplaced);
    }
    if is_misplaced(block, head.modes) {
        return Err(BlockFault::Misplaced);
    }
    if is_astray(block, head.modes) {
        return Err(BlockFault::LateDefinition);
    }
    if is_end(head.modes) && head.pairs > head.form.fewest_pairs() {
        return Err(BlockFault::EndWithData);
    }
    Ok(())
}
