//! What is wrong with a text of levels.
ghost use Rattle.std.specs.Prelude.{◌≡◌};
ghost use Rattle.ice_sim_levels.specs.declared.fault.LevelFault.TheVariants.{NoMemory as out_of_memory};

use ice_base::NoMemory;
use std::alloc::AllocFailed;
use thiserror::Error;

/// Why a text has no levels.
#[derive(Clone, Copy, Debug, PartialEq, Eq, Error)]
pub enum LevelFault {
    /// The line has words before its comment, and they aren't one word of `0` and `1`, one digit for each port.
    #[error("line {line}: not a digit for each port")]
    BadLine {
        /// The number of the line, from 1; every line beyond number 4,294,967,295 has that number too.
        line: u32,
    },
    /// Want of memory.
    #[error("want of memory")]
    NoMemory,
}

impl From<NoMemory> for LevelFault {
    ghost from_gives = { λ _ e. e ≡ out_of_memory };

    fn from(_: NoMemory) -> LevelFault {
        LevelFault::NoMemory
    }
}

impl<T: Drop> From<AllocFailed<T>> for LevelFault {
    ghost from_gives = { λ _ e. e ≡ out_of_memory };

    fn from(_: AllocFailed<T>) -> LevelFault {
        LevelFault::NoMemory
    }
}
