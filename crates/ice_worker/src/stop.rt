//! Why a worker stopped.
ghost use Rattle.std.specs.Prelude.{◌≡◌};
ghost use Rattle.ice_worker.specs.Kits.{stop_as};
ghost use Rattle.ice_worker.specs.declared.stop.WorkStop.TheVariants.{NoMemory};

use ice_base::WireNo;
use ice_negotiate_defs::TreeStop;
use std::alloc::{AllocError, AllocFailed};
use thiserror::Error;

/// Why a worker stopped.
#[derive(Clone, Copy, Debug, Error)]
pub enum WorkStop {
    /// No walk leads from the root of a task to any target of a sink.
    #[error("no walk to wire {} for task {}", .sink.0, .task)]
    Unreachable {
        /// The number of the task.
        task: u32,
        /// The first target of the sink.
        sink: WireNo,
    },
    /// Want of memory.
    #[error("want of memory")]
    NoMemory,
}

impl From<AllocError> for WorkStop {
    ghost from_gives = { λ _ e. e ≡ NoMemory };

    fn from(_: AllocError) -> Self {
        WorkStop::NoMemory
    }
}

impl<T: Drop> From<AllocFailed<T>> for WorkStop {
    ghost from_gives = { λ _ e. e ≡ NoMemory };

    fn from(_: AllocFailed<T>) -> Self {
        WorkStop::NoMemory
    }
}

impl From<ice_base::NoMemory> for WorkStop {
    ghost from_gives = { λ _ e. e ≡ NoMemory };

    fn from(_: ice_base::NoMemory) -> Self {
        WorkStop::NoMemory
    }
}

// Why the task of this number isn't done.
pub fn stop_of(number: u32, stop: TreeStop) -> WorkStop
    ensures { result ≡ stop_as number stop }
{
    match stop {
        TreeStop::Unreachable { sink } => WorkStop::Unreachable { task: number, sink },
        TreeStop::NoMemory => WorkStop::NoMemory,
    }
}
