//! Why clusters get no places.
ghost use Rattle.std.specs.Prelude.{◌≡◌};
ghost use Rattle.ice_place.specs.declared.fault.PlaceFault.TheVariants.{NoMemory as out_of_memory};

use ice_base::NoMemory;
use std::alloc::AllocFailed;
use thiserror::Error;

/// Why there is no placement.
#[derive(Debug, Drop, Error)]
pub enum PlaceFault {
    /// A run has more cells than the longest stretch of linked sites, which holds `tallest`.
    #[error("a run of {length} cells, where {tallest} fit")]
    RunTooLong { length: u32, tallest: u32 },
    /// More clusters than sites.
    #[error("{need} clusters, {have} sites")]
    Overfull { need: u32, have: u32 },
    /// No stretch has room left for the run of this place in the list of runs, counted from 0, and this number of cells.
    #[error("no room for run {run} of {length} cells")]
    RunUnplaced { run: u32, length: u32 },
    /// Want of memory.
    #[error("want of memory")]
    NoMemory,
}

impl From<NoMemory> for PlaceFault {
    ghost from_gives = { λ _ e. e ≡ out_of_memory };

    fn from(_: NoMemory) -> PlaceFault {
        PlaceFault::NoMemory
    }
}

impl<T: Drop> From<AllocFailed<T>> for PlaceFault {
    ghost from_gives = { λ _ e. e ≡ out_of_memory };

    fn from(_: AllocFailed<T>) -> PlaceFault {
        PlaceFault::NoMemory
    }
}
