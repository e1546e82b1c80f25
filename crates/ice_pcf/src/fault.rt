//! What is wrong with a text of pin constraints.
ghost use Rattle.std.specs.Prelude.{◌≡◌};
ghost use Rattle.ice_pcf.specs.declared.fault.PcfFault.TheVariants.{NoMemory as out_of_memory};

use ice_base::NoMemory;
use std::alloc::AllocFailed;
use thiserror::Error;

/// Why a text has no constraints, with the number of the line.
#[derive(Clone, Copy, Debug, PartialEq, Eq, Error)]
pub enum PcfFault {
    /// The first word is neither `set_io` nor `set_frequency`, or another word than an option begins with `-`
    /// before the name, or `-pullup` has another value than `yes` and `no`.
    #[error("line {line}: an unknown word")]
    UnknownWord { line: u32 },
    /// The line ends before the pin.
    #[error("line {line}: a word is missing")]
    Missing { line: u32 },
    /// A word stands behind the pin.
    #[error("line {line}: a word too many")]
    Extra { line: u32 },
    /// Want of memory.
    #[error("want of memory")]
    NoMemory,
}

impl From<NoMemory> for PcfFault {
    ghost from_gives = { λ _ e. e ≡ out_of_memory };

    fn from(_: NoMemory) -> PcfFault {
        PcfFault::NoMemory
    }
}

impl<T: Drop> From<AllocFailed<T>> for PcfFault {
    ghost from_gives = { λ _ e. e ≡ out_of_memory };

    fn from(_: AllocFailed<T>) -> PcfFault {
        PcfFault::NoMemory
    }
}
