//! Why a text says no configuration bits.
ghost use Rattle.std.specs.Prelude.{◌≡◌};
ghost use Rattle.ice_asc.specs.Stops.{fault_of};
ghost use Rattle.ice_asc.specs.declared.fault.AscStop.TheVariants.{NoMemory, Fault};

use std::alloc::{AllocError, AllocFailed};
use thiserror::Error;

/// A fault of a text of bits. Lines are numbered from 1.
#[derive(Clone, Copy, Debug, PartialEq, Eq, Error)]
pub enum AscFault {
    /// A tile stands before the device, or no line names a device: then the line is the last one of the text, or 0.
    #[error("line {line}: no device is named before")]
    NoDevice {
        /// The line.
        line: u32,
    },
    /// The words behind `.device` aren't the name of the chip's device.
    #[error("line {line}: another device than 1k")]
    OtherDevice {
        /// The line.
        line: u32,
    },
    /// The chip has no tile of the kind there, or no block RAM.
    #[error("line {line}: the chip has no such tile")]
    UnknownTile {
        /// The line.
        line: u32,
    },
    /// A tile's second heading, or a block RAM's.
    #[error("line {line}: a tile for the second time")]
    TileTwice {
        /// The line.
        line: u32,
    },
    /// A line among the sixteen of a tile or a block RAM isn't of the form, or an extra bit lacks its three numbers.
    #[error("line {line}: bad row of bits")]
    BadRow {
        /// The line.
        line: u32,
    },
    /// A line that is no heading, where no section takes it.
    #[error("line {line}: unknown word")]
    UnknownWord {
        /// The line.
        line: u32,
    },
    /// The text ends before the sixteen lines of a tile or a block RAM.
    #[error("line {line}: the tile lacks rows")]
    Truncated {
        /// The line of the heading.
        line: u32,
    },
    /// Want of memory.
    #[error("want of memory")]
    NoMemory,
}

/// Why reading stops.
#[derive(Clone, Copy, Debug, Error)]
pub enum AscStop {
    /// Want of memory.
    #[error("want of memory")]
    NoMemory,
    /// The first fault of the text.
    #[error("{0}")]
    Fault(AscFault),
}

impl From<AllocError> for AscStop {
    ghost from_gives = { λ _ e. e ≡ NoMemory };

    fn from(_: AllocError) -> Self {
        AscStop::NoMemory
    }
}

impl<T: Drop> From<AllocFailed<T>> for AscStop {
    ghost from_gives = { λ _ e. e ≡ NoMemory };

    fn from(_: AllocFailed<T>) -> Self {
        AscStop::NoMemory
    }
}

impl From<ice_base::NoMemory> for AscStop {
    ghost from_gives = { λ _ e. e ≡ NoMemory };

    fn from(_: ice_base::NoMemory) -> Self {
        AscStop::NoMemory
    }
}

impl From<AscFault> for AscStop {
    ghost from_gives = { λ fault e. e ≡ Fault fault };

    fn from(fault: AscFault) -> Self {
        AscStop::Fault(fault)
    }
}

impl From<AscStop> for AscFault {
    ghost from_gives = { λ stop fault. fault ≡ fault_of stop };

    fn from(stop: AscStop) -> Self {
        match stop {
            AscStop::NoMemory => AscFault::NoMemory,
            AscStop::Fault(fault) => fault,
        }
    }
}
