//! Why bits have no circuit.
ghost use Rattle.std.specs.Prelude.{◌≡◌};
ghost use Rattle.ice_decode.specs.declared.fault.DecodeFault.TheVariants.{NoMemory as out_of_memory};

use crate::Wires;
use ice_base::{NoMemory, RowNo, TileAt, WireNo};
use ice_chip::Pad;
use std::alloc::{AllocError, AllocFailed};
use thiserror::Error;

/// Why bits have no circuit. The kinds are looked for in this order, each over the whole chip.
#[derive(Debug, Drop, Error)]
pub enum DecodeFault {
    /// Two rows of switches into the wire are on, of which these are the first two; the least such wire.
    #[error("two rows of switches drive one wire")]
    Contention {
        /// The wire.
        wire: WireNo,
        /// The first two rows into it that are on.
        rows: (RowNo, RowNo),
    },
    /// A row is on whose source is this wire, an output of a memory that is no block RAM in use; the least such row.
    #[error("a memory drives a wire")]
    ForeignSource {
        /// The source of the row.
        wire: WireNo,
    },
    /// A bit of a function of a PLL, of a pair of pads or of a cascade of block RAMs, or the falling clock of a register of a pad that is in use, is set in this tile,
    /// the function of this line; the first in the order of tiles and then of lines.
    #[error("line {line}: a function of a PLL or of pads is set")]
    ForeignFunction {
        /// The place of the tile.
        tile: TileAt,
        /// The line of the function in the database.
        line: u32,
    },
    /// An extra bit is no global's; the first such in their order.
    #[error("an extra bit of no global")]
    ForeignExtra {
        /// Its bank, its column and its row.
        extra: (u32, u32, u32),
    },
    /// The wires of a closed list of wires and carries, each of which depends on the next, and the last on the first.
    #[error("a loop of wires")]
    ChipLoop {
        /// The wires in the order of the list.
        wires: Wires,
    },
    /// The pad's type has an output part that is unknown, or its input is read while its input part is not 01 and its type not 0; the
    /// first in the order of tiles and pads. The value is from 0 to 63.
    #[error("{value} is no type of a pad that is known")]
    PinType {
        /// The pad.
        pad: Pad,
        /// The type that its bits say.
        value: u8,
    },
    /// Want of memory.
    #[error("want of memory")]
    NoMemory,
}

impl From<NoMemory> for DecodeFault {
    ghost from_gives = { λ _ e. e ≡ out_of_memory };

    fn from(_: NoMemory) -> DecodeFault {
        DecodeFault::NoMemory
    }
}

impl From<AllocError> for DecodeFault {
    ghost from_gives = { λ _ e. e ≡ out_of_memory };

    fn from(_: AllocError) -> DecodeFault {
        DecodeFault::NoMemory
    }
}

impl<T: Drop> From<AllocFailed<T>> for DecodeFault {
    ghost from_gives = { λ _ e. e ≡ out_of_memory };

    fn from(_: AllocFailed<T>) -> DecodeFault {
        DecodeFault::NoMemory
    }
}
