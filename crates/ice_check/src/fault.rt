//! What is wrong with a netlist.
ghost use Rattle.std.specs.Prelude.{◌≡◌};
ghost use Rattle.ice_check.specs.declared.fault.NetFault.TheVariants.{NoMemory as out_of_memory};

use crate::Names;
use ice_base::{Name, NoMemory};
use std::alloc::{AllocError, AllocFailed};
use thiserror::Error;

/// Why a netlist has no meaning. The kinds are looked for in this order, each over the whole netlist.
#[derive(Debug, Drop, Error)]
pub enum NetFault {
    /// An input in use, or an output port without an SB_IO, is at this signal, which nothing drives; the first in order of
    /// signals.
    #[error("a signal that nothing drives")]
    Undriven { signal: Name },
    /// Two of the pads, covers and connected outputs drive this signal; the first in order of signals.
    #[error("a signal that is driven twice")]
    DrivenTwice { signal: Name },
    /// Each of these signals depends on the next, and the last on the first, which was seen first of them.
    #[error("a loop of signals")]
    Loop { signals: Names },
    /// The port is at more than one SB_IO; the first in order of ports.
    #[error("a port with two SB_IO")]
    PadShared { port: Name },
    /// The SB_IO of this line has a PIN_TYPE that is none of the three; the first in order of cells.
    #[error("line {line}: {value} is no PIN_TYPE that is known")]
    PinTypeOut { line: u32, value: u8 },
    /// The PACKAGE_PIN of the SB_IO of this line is missing or no port; the first in order of cells.
    #[error("line {line}: the PACKAGE_PIN is no port")]
    PinNotPort { line: u32 },
    /// The port is both an input and an output, and at no SB_IO; the first in order of ports.
    #[error("a port in both ways without an SB_IO")]
    InoutBare { port: Name },
    /// Want of memory.
    #[error("want of memory")]
    NoMemory,
}

impl From<NoMemory> for NetFault {
    ghost from_gives = { λ _ e. e ≡ out_of_memory };

    fn from(_: NoMemory) -> NetFault {
        NetFault::NoMemory
    }
}

impl From<AllocError> for NetFault {
    ghost from_gives = { λ _ e. e ≡ out_of_memory };

    fn from(_: AllocError) -> NetFault {
        NetFault::NoMemory
    }
}

impl<T: Drop> From<AllocFailed<T>> for NetFault {
    ghost from_gives = { λ _ e. e ≡ out_of_memory };

    fn from(_: AllocFailed<T>) -> NetFault {
        NetFault::NoMemory
    }
}
