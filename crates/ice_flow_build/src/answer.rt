//! What building answers.
ghost use Rattle.std.specs.Prelude.{◌≡◌};
ghost use Rattle.ice_flow_build.specs.declared.answer.BuildFault.TheVariants.{NoMemory as out_of_memory};
ghost use Rattle.ice_flow_build.specs.Faults.{pin_fault, place_fault, bits_fault};
ghost use Rattle.ice_flow_build.specs.Laid.{arrangement_in};

use ice_base::{NetNo, NoMemory, WireNo};
use ice_bits::Bits;
use ice_carry::CarryFault;
use ice_cells::{Clusters, Design, Items};
use ice_core::{Net, RoundLog};
use ice_decode::DecodeFault;
use ice_negotiate_defs::{Kept, Routed};
use ice_pads::{Pads, PinFault};
use ice_place::{Arrangement, PlaceFault, Placement};
use ice_words::Tally;
use std::fmt;
use thiserror::Error;

/// How long to try, and from where.
#[derive(Clone, Copy)]
pub struct Effort {
    /// From what the placement's random choices are made.
    pub seed: u64,
    /// How many rounds of routing are permitted, from 1 to 64.
    pub rounds: u32,
    /// How many workers route, from 1 to 8. Without the opening the answer does not depend on it.
    pub workers: u32,
    /// Whether workers first take whole nets, with which the rounds begin.
    pub opening: bool,
}

/// A placed design: its logic cells in clusters by their ranks, the pads of its ports, and the tile of each cluster.
#[derive(Drop)]
pub struct Layout {
    /// The logic cells, runs, pads and global buffers.
    pub design: Design,
    /// The rank of each cell, by which it stands among those of its kind; no ranks where they stand as the design has them.
    pub ranks: Items<u32>,
    /// The clusters of the logic cells, by their ranks.
    pub clusters: Clusters,
    /// The pad of each port, and the global of each global buffer.
    pub pads: Pads,
    /// The tile of each cluster.
    pub placement: Placement,
}

/// Where the cells of a placed design stand, of which the rest is let go.
pub fn arrangement_of(layout: Layout) -> Arrangement
    ensures { result ≡ arrangement_in layout }
{
    Arrangement {
        ranks: layout.ranks,
        placement: layout.placement,
    }
}

/// What is told of the rounds of routes, of which the rest is let go.
pub fn tallies_of(routed: Routed) -> Vec<Tally>
    ensures { result ≡ routed.tallies }
{
    routed.tallies
}

impl fmt::Debug for Layout {
    fn fmt<W: fmt::Write>(&self, f: &mut fmt::Formatter<W>) -> fmt::Result {
        f.write_str("Layout")
    }
}

/// A placed design with its nets, which are routed.
#[derive(Drop)]
pub struct RoutedLayout {
    /// The placed design.
    pub layout: Layout,
    /// Its nets.
    pub nets: Vec<Net>,
    /// What the opening left of them; nothing where there was none.
    pub kept: Vec<Kept>,
    /// Their trees, and what happened in the rounds that led to them.
    pub routed: Routed,
}

/// A placed and routed design with its bits.
#[derive(Drop)]
pub struct Built {
    /// The placed design.
    pub layout: Layout,
    /// What the opening left of its nets; nothing where there was none.
    pub kept: Vec<Kept>,
    /// The trees of its nets, and what happened in the rounds that led to them.
    pub routed: Routed,
    /// The bits of the chip.
    pub bits: Bits,
}

/// Why no bits are built.
#[derive(Debug, Drop, Error)]
pub enum BuildFault {
    /// The ports get no pads, or the global buffers no globals; never for want of memory.
    #[error("no pins: {0}")]
    Pins(PinFault),
    /// The clusters get no places; never for want of memory.
    #[error("no places: {0}")]
    Places(PlaceFault),
    /// No walk leads from the root of this net to any target of a sink.
    #[error("no walk of net {} to wire {}", .net.0, .sink.0)]
    Unreachable {
        /// The placed design.
        layout: Layout,
        /// The net.
        net: NetNo,
        /// The first target of the sink.
        sink: WireNo,
    },
    /// Each permitted round ended with an overused wire.
    #[error("no routes without a shared wire")]
    GaveUp {
        /// The placed design.
        layout: Layout,
        /// How many nets it has.
        nets: u32,
        /// What the opening left of them; nothing where there was none.
        kept: Vec<Kept>,
        /// The logs of the rounds in order, behind that of the opening.
        logs: Vec<RoundLog>,
        /// The tallies of the rounds in order.
        tallies: Vec<Tally>,
    },
    /// The bits that would be written have no circuit, since globals of the chip feed each other; never for want of memory.
    #[error("no circuit: {0}")]
    Bits(DecodeFault),
    /// Want of memory.
    #[error("want of memory")]
    NoMemory,
}

impl From<NoMemory> for BuildFault {
    ghost from_gives = { λ _ e. e ≡ out_of_memory };

    fn from(_: NoMemory) -> BuildFault {
        BuildFault::NoMemory
    }
}

impl From<CarryFault> for BuildFault {
    ghost from_gives = { λ _ e. e ≡ out_of_memory };

    fn from(_: CarryFault) -> BuildFault {
        BuildFault::NoMemory
    }
}

impl From<PinFault> for BuildFault {
    ghost from_gives = { λ fault e. e ≡ pin_fault fault };

    fn from(fault: PinFault) -> BuildFault {
        match fault {
            PinFault::NoMemory => BuildFault::NoMemory,
            other => BuildFault::Pins(other),
        }
    }
}

impl From<PlaceFault> for BuildFault {
    ghost from_gives = { λ fault e. e ≡ place_fault fault };

    fn from(fault: PlaceFault) -> BuildFault {
        match fault {
            PlaceFault::NoMemory => BuildFault::NoMemory,
            other => BuildFault::Places(other),
        }
    }
}

impl From<DecodeFault> for BuildFault {
    ghost from_gives = { λ fault e. e ≡ bits_fault fault };

    fn from(fault: DecodeFault) -> BuildFault {
        match fault {
            DecodeFault::NoMemory => BuildFault::NoMemory,
            other => BuildFault::Bits(other),
        }
    }
}
