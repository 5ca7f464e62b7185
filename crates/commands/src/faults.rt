// Why a script cannot go on.
ghost use Rattle.commands.specs.Faults.{hex_fault};
ghost use Rattle.commands.specs.declared.faults.ScriptFault.TheVariants.{NoMemory};
ghost use Rattle.std.specs.Prelude.{◌≡◌};

use hex::FromHexError;
use std::alloc::{AllocError, AllocFailed};

#[derive(Clone, Copy, PartialEq, Eq, Debug)]
pub enum ScriptFault {
    /// The line is no command.
    Unreadable,
    /// There is no memory for what the line says.
    NoMemory,
}

impl From<AllocError> for ScriptFault {
    ghost from_gives = { λ _ r. r ≡ NoMemory };

    fn from(_error: AllocError) -> ScriptFault {
        ScriptFault::NoMemory
    }
}

impl<T: Drop> From<AllocFailed<T>> for ScriptFault {
    ghost from_gives = { λ _ r. r ≡ NoMemory };

    fn from(_error: AllocFailed<T>) -> ScriptFault {
        ScriptFault::NoMemory
    }
}

impl From<FromHexError> for ScriptFault {
    ghost from_gives = { λ error r. r ≡ hex_fault error };

    fn from(error: FromHexError) -> ScriptFault {
        match error {
            FromHexError::OutOfMemory => ScriptFault::NoMemory,
            _ => ScriptFault::Unreadable,
        }
    }
}
