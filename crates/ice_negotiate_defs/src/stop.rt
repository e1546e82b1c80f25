//! Why a net gets no tree.
ghost use Rattle.std.specs.Prelude.{◌≡◌};
ghost use Rattle.ice_negotiate_defs.specs.declared.stop.TreeStop.TheVariants.{NoMemory};

use ice_base::WireNo;
use std::alloc::{AllocError, AllocFailed};
use thiserror::Error;

/// Why a net gets no tree.
#[derive(Clone, Copy, Debug, Error)]
pub enum TreeStop {
    /// No walk leads from the root to any target of a sink.
    #[error("no walk to wire {}", .sink.0)]
    Unreachable {
        /// The first target of the sink.
        sink: WireNo,
    },
    /// Want of memory.
    #[error("want of memory")]
    NoMemory,
}

impl From<AllocError> for TreeStop {
    ghost from_gives = { λ _ e. e ≡ NoMemory };

    fn from(_: AllocError) -> Self {
        TreeStop::NoMemory
    }
}

impl<T: Drop> From<AllocFailed<T>> for TreeStop {
    ghost from_gives = { λ _ e. e ≡ NoMemory };

    fn from(_: AllocFailed<T>) -> Self {
        TreeStop::NoMemory
    }
}

impl From<ice_base::NoMemory> for TreeStop {
    ghost from_gives = { λ _ e. e ≡ NoMemory };

    fn from(_: ice_base::NoMemory) -> Self {
        TreeStop::NoMemory
    }
}
