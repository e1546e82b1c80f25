//! Why a chip text, or the rows of one, make no chip.
ghost use Rattle.std.specs.Prelude.{◌≡◌};
ghost use Rattle.ice_chip.specs.declared.fault.ChipFault.TheVariants.{NoMemory};

use std::alloc::{AllocError, AllocFailed};
use thiserror::Error;

/// A fault of a chip text. Lines are numbered from 1. Where two lines make a fault together, `line` is the later one and `other` the
/// earlier one.
#[derive(Clone, Copy, Debug, PartialEq, Eq, Error)]
pub enum ChipFault {
    /// The first section isn't `.device`, or a row stands before any section; line 0 where no line has words.
    #[error("line {line}: the text doesn't begin with a device")]
    NoDevice { line: u32 },
    /// A heading or row has too few or too many words, or a word that must be a number isn't.
    #[error("line {line}: bad words or numbers")]
    BadNumber { line: u32 },
    /// The device's name isn't `1k`.
    #[error("line {line}: another device than 1k")]
    BadName { line: u32 },
    /// A coordinate, wire, pad or global is out of range, the size of a tile's bits is wrong, or a group stands where
    /// no tile is.
    #[error("line {line}: out of range")]
    OutOfRange { line: u32 },
    /// A second `.device`, tile, `.net` of a wire or read function of a kind, or the same name of two wires in a tile.
    #[error("line {line}: a second time after line {other}")]
    Twice { line: u32, other: u32 },
    /// A bit's name isn't of the form or isn't in the tile, or a group has no bits.
    #[error("line {line}: bad bit")]
    BadBit { line: u32 },
    /// The values of a row have another length than the group's bits, or another digit.
    #[error("line {line}: bad values")]
    BadValues { line: u32 },
    /// A read function shares a bit with another read or kept function of its kind, or with a group in such a tile; or it
    /// names a bit twice, and both lines are its own.
    #[error("line {line}: shares a bit with line {other}")]
    SharedFunction { line: u32, other: u32 },
    /// A kind with a tile lacks a function that is needed, where the line is 0, or has it with another number of bits.
    #[error("line {line}: a function is lacking")]
    LacksFunction { line: u32 },
    /// A wire has two input or output names, where one `glb_netwk_N` in several tiles is one name.
    #[error("line {line}: the wire has a pin since line {other}")]
    SharedPin { line: u32, other: u32 },
    /// More wires, switch rows, columns or rows of places than there may be, which is the limit.
    #[error("more than {limit}")]
    TooMany { limit: u32 },
    /// Want of memory.
    #[error("want of memory")]
    NoMemory,
}

impl From<AllocError> for ChipFault {
    ghost from_gives = { λ _ e. e ≡ NoMemory };

    fn from(_: AllocError) -> Self {
        ChipFault::NoMemory
    }
}

impl<T: Drop> From<AllocFailed<T>> for ChipFault {
    ghost from_gives = { λ _ e. e ≡ NoMemory };

    fn from(_: AllocFailed<T>) -> Self {
        ChipFault::NoMemory
    }
}

impl From<ice_base::NoMemory> for ChipFault {
    ghost from_gives = { λ _ e. e ≡ NoMemory };

    fn from(_: ice_base::NoMemory) -> Self {
        ChipFault::NoMemory
    }
}
