//! What routing answers.
ghost use Rattle.std.specs.Prelude.{◌≡◌};
ghost use Rattle.ice_negotiate_defs.specs.declared.fault.RouteFault.TheVariants.{NoMemory};

use ice_base::{NetNo, WireNo};
use ice_core::RoundLog;
use ice_graph::Tree;
use ice_words::Tally;
use std::alloc::{AllocError, AllocFailed};
use thiserror::Error;

/// The routes of nets that share no wire, and what happened in the rounds that led to them.
#[derive(Drop)]
pub struct Routed {
    /// The routes of the nets by number.
    pub trees: Vec<Tree>,
    /// The logs of the rounds in order.
    pub logs: Vec<RoundLog>,
    /// The tallies of the rounds in order.
    pub tallies: Vec<Tally>,
}

/// Why nets are not routed.
#[derive(Debug, Drop, Error)]
pub enum RouteFault {
    /// No walk leads from the root of this net to any target of a sink.
    #[error("no walk of net {} to wire {}", .net.0, .sink.0)]
    Unreachable {
        /// The net.
        net: NetNo,
        /// The first target of the sink.
        sink: WireNo,
    },
    /// Each permitted round ended with an overused wire.
    #[error("no routes without a shared wire")]
    GaveUp {
        /// The logs of the rounds in order.
        logs: Vec<RoundLog>,
        /// The tallies of the rounds in order.
        tallies: Vec<Tally>,
    },
    /// Want of memory.
    #[error("want of memory")]
    NoMemory,
}

impl From<AllocError> for RouteFault {
    ghost from_gives = { λ _ e. e ≡ NoMemory };

    fn from(_: AllocError) -> Self {
        RouteFault::NoMemory
    }
}

impl<T: Drop> From<AllocFailed<T>> for RouteFault {
    ghost from_gives = { λ _ e. e ≡ NoMemory };

    fn from(_: AllocFailed<T>) -> Self {
        RouteFault::NoMemory
    }
}

impl From<ice_base::NoMemory> for RouteFault {
    ghost from_gives = { λ _ e. e ≡ NoMemory };

    fn from(_: ice_base::NoMemory) -> Self {
        RouteFault::NoMemory
    }
}
