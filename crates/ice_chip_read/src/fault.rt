//! Why the lines of a chip text give no rows.
ghost use Rattle.std.specs.Prelude.{◌≡◌};
ghost use Rattle.ice_chip_read.specs.Stops.{fault_of};
ghost use Rattle.ice_chip_read.specs.declared.fault.ChipStop.TheVariants.{NoMemory, Fault};

use ice_chip::ChipFault;
use std::alloc::{AllocError, AllocFailed};
use thiserror::Error;

/// Why a chip text gives no rows.
#[derive(Clone, Copy, Debug, Error)]
pub enum ChipStop {
    /// Want of memory.
    #[error("want of memory")]
    NoMemory,
    /// The first fault of the text's lines.
    #[error("{0}")]
    Fault(ChipFault),
}

impl From<AllocError> for ChipStop {
    ghost from_gives = { λ _ e. e ≡ NoMemory };

    fn from(_: AllocError) -> Self {
        ChipStop::NoMemory
    }
}

impl<T: Drop> From<AllocFailed<T>> for ChipStop {
    ghost from_gives = { λ _ e. e ≡ NoMemory };

    fn from(_: AllocFailed<T>) -> Self {
        ChipStop::NoMemory
    }
}

impl From<ice_base::NoMemory> for ChipStop {
    ghost from_gives = { λ _ e. e ≡ NoMemory };

    fn from(_: ice_base::NoMemory) -> Self {
        ChipStop::NoMemory
    }
}

impl From<ChipFault> for ChipStop {
    ghost from_gives = { λ fault e. e ≡ Fault fault };

    fn from(fault: ChipFault) -> Self {
        ChipStop::Fault(fault)
    }
}

impl From<ChipStop> for ChipFault {
    ghost from_gives = { λ stop fault. fault ≡ fault_of stop };

    fn from(stop: ChipStop) -> Self {
        match stop {
            ChipStop::NoMemory => ChipFault::NoMemory,
            ChipStop::Fault(fault) => fault,
        }
    }
}
