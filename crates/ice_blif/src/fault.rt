//! What is wrong with a netlist text.
ghost use Rattle.std.specs.Prelude.{◌≡◌};
ghost use Rattle.ice_blif.specs.declared.fault.BlifFault.TheVariants.{NoMemory as out_of_memory};

use ice_base::NoMemory;
use std::alloc::{AllocError, AllocFailed};
use thiserror::Error;

/// Why a text has no netlist, with the number of the line.
#[derive(Clone, Copy, Debug, PartialEq, Eq, Error)]
pub enum BlifFault {
    /// Another word than `.model` comes first; without any word the line is 0.
    #[error("line {line}: the netlist does not begin with .model")]
    NoModel { line: u32 },
    /// A second `.model`.
    #[error("line {line}: a second model")]
    SecondModel { line: u32 },
    /// A word with a dot that is no directive, or a row where none may stand.
    #[error("line {line}: an unknown directive, or a row outside a cover")]
    UnknownDirective { line: u32 },
    /// The kind of a cell is missing, or is none that is known.
    #[error("line {line}: an unknown kind of cell")]
    UnknownCell { line: u32 },
    /// A connection without `=`, or to a port that the kind lacks.
    #[error("line {line}: an unknown port of a cell")]
    UnknownPort { line: u32 },
    /// A port of a cell twice, or a name twice among the inputs or twice among the outputs.
    #[error("line {line}: a port twice")]
    PortTwice { line: u32 },
    /// A parameter that is read has another form, or is refused.
    #[error("line {line}: a bad parameter")]
    BadParam { line: u32 },
    /// `.names` without a signal, or a row of another form.
    #[error("line {line}: a bad cover")]
    BadCover { line: u32 },
    /// `.names` with more than four inputs.
    #[error("line {line}: a cover of more than four inputs")]
    TooWide { line: u32 },
    /// The text ends before `.end`; the line is its last.
    #[error("line {line}: the text ends before .end")]
    NoEnd { line: u32 },
    /// More signals, or more lines that make a cell, than the limit.
    #[error("line {line}: more than {limit} signals or cells")]
    TooMany { line: u32, limit: u32 },
    /// Want of memory.
    #[error("want of memory")]
    NoMemory,
}

impl From<NoMemory> for BlifFault {
    ghost from_gives = { λ _ e. e ≡ out_of_memory };

    fn from(_: NoMemory) -> BlifFault {
        BlifFault::NoMemory
    }
}

impl From<AllocError> for BlifFault {
    ghost from_gives = { λ _ e. e ≡ out_of_memory };

    fn from(_: AllocError) -> BlifFault {
        BlifFault::NoMemory
    }
}

impl<T: Drop> From<AllocFailed<T>> for BlifFault {
    ghost from_gives = { λ _ e. e ≡ out_of_memory };

    fn from(_: AllocFailed<T>) -> BlifFault {
        BlifFault::NoMemory
    }
}
