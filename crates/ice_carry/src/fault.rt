//! Why no runs are made.
use ice_base::NoMemory;
use thiserror::Error;

/// Why no runs are made.
#[derive(Debug, Drop, Error)]
pub enum CarryFault {
    /// Want of memory.
    #[error("want of memory")]
    NoMemory,
}

impl From<NoMemory> for CarryFault {
    fn from(_: NoMemory) -> CarryFault {
        CarryFault::NoMemory
    }
}
