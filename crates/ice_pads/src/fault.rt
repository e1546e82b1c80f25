//! Why no pads, globals or places of RAMs are assigned.
ghost use Rattle.std.specs.Prelude.{◌≡◌};
ghost use Rattle.ice_pads.specs.declared.fault.PinFault.TheVariants.{NoMemory as out_of_memory};

use ice_base::{Name, NoMemory};
use std::alloc::AllocFailed;
use thiserror::Error;

/// Why the ports of a netlist get no pads, its global buffers no globals, or its RAMs no places.
#[derive(Debug, Drop, Error)]
pub enum PinFault {
    /// The database has no package of the name.
    #[error("no package")]
    NoPackage,
    /// The package has no pin of the name that the constraint at this line gives.
    #[error("line {line}: an unknown pin")]
    UnknownPin { line: u32 },
    /// The netlist has no port of the name that the constraint at this line gives.
    #[error("line {line}: an unknown port")]
    UnknownPort { line: u32 },
    /// Two lines give one pad.
    #[error("lines {first} and {second}: one pad")]
    PinTwice { first: u32, second: u32 },
    /// Two lines give one port its pad.
    #[error("lines {first} and {second}: one port")]
    PortTwice { first: u32, second: u32 },
    /// No free pad has the wires that this port needs, or no pin is left for a port of a RAM.
    #[error("no pad left")]
    NoPadLeft { port: Name },
    /// More global buffers than globals that can be taken.
    #[error("{need} global buffers, {have} globals")]
    TooManyGlobals { need: u32, have: u32 },
    /// More RAMs than the chip has.
    #[error("{need} RAMs, {have} that can be taken")]
    TooManyRams { need: u32, have: u32 },
    /// The pad that a constraint gives to this port, or the pin of a RAM that it gets, lacks a wire that it needs.
    #[error("a pad without the wires")]
    PadLacks { port: Name },
    /// Want of memory.
    #[error("want of memory")]
    NoMemory,
}

impl From<NoMemory> for PinFault {
    ghost from_gives = { λ _ e. e ≡ out_of_memory };

    fn from(_: NoMemory) -> PinFault {
        PinFault::NoMemory
    }
}

impl<T: Drop> From<AllocFailed<T>> for PinFault {
    ghost from_gives = { λ _ e. e ≡ out_of_memory };

    fn from(_: AllocFailed<T>) -> PinFault {
        PinFault::NoMemory
    }
}
