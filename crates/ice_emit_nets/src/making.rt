//! The nets of a placed design.
ghost use Rattle.std.specs.Prelude.{◌≡◌, map, length, IfOk};
ghost use Rattle.std.specs.List.{range_with_len};
ghost use Rattle.ice_emit_nets.specs.Nets.{nets_of, bare_net, net_number};
ghost use Rattle.ice_emit_nets.specs.Plans.{plan_of};
ghost use Rattle.ice_place_defs.specs.Plan.{plan_in};

use crate::clusters::ends_of;
use crate::collecting::collect;
use crate::lists::lists_of;
use crate::wires::wires_of;
use ice_base::NoMemory;
use ice_cells::{Clusters, Design};
use ice_chip::Chip;
use ice_core::Net;
use ice_pads::Pads;
use ice_place::Placement;
use ice_place_defs::Placed;
use std::alloc::Global;

// The nets of a placed design.
#[tactic(auto, using(crate::proofs::Netting::nets_are))]
fn nets_in(alloc: Global, placed: &Placed<'_>) -> Result<Vec<Net>, NoMemory>
    ensures nets { IfOk result (λ nets.
        map bare_net nets.items ≡ nets_of placed.now.chip.now (plan_in placed.now)) }
    ensures numbers { IfOk result (λ nets.
        map net_number nets.items ≡ range_with_len 0 (length nets.items)) }
{
    let ends = ends_of(alloc, placed)?;
    let lists = lists_of(alloc, placed, ends)?;
    let wires = wires_of(alloc, placed)?;
    let nets = collect(alloc, &wires, lists)?;
    Ok(nets)
}

/// A placed design, by its parts.
pub fn placed_of<'a>(
    chip: &'a Chip,
    design: &'a Design,
    clusters: &'a Clusters,
    placement: &'a Placement,
    pads: &'a Pads,
) -> Placed<'a>
    ensures chip { result.chip.now ≡ chip.now }
    ensures plan { plan_in result ≡ plan_of design.now clusters.now placement.now pads.now }
{
    Placed {
        chip,
        design,
        clusters: clusters.list(),
        tiles: placement.tiles(),
        ports: pads.ports(),
        globals: pads.globals(),
        direct: pads.direct(),
    }
}

/// The nets of a placed design, numbered in order: for each pad, each cell and each global buffer that something reads and
/// that has a wire, that wire and its sinks. The sinks of a root come in the order of the pads that it drives, the global
/// buffers that it feeds in a tile, and cluster by cluster the cells' inputs and what the flip-flops share. A cell without a carry has
/// one sink for each root that it reads, which may arrive at any of its inputs; every other sink has one target, or none where
/// the tile lacks the wire. A root that is none of the design, or a carry, is left out.
///
/// # Errors
/// Want of memory alone; more than 4,294,967,296 nets count as such.
pub fn nets_of(
    alloc: Global,
    chip: &Chip,
    design: &Design,
    clusters: &Clusters,
    placement: &Placement,
    pads: &Pads,
) -> Result<Vec<Net>, NoMemory>
    ensures nets { IfOk result (λ nets. map bare_net nets.items
        ≡ nets_of chip.now (plan_of design.now clusters.now placement.now pads.now)) }
    ensures numbers { IfOk result (λ nets.
        map net_number nets.items ≡ range_with_len 0 (length nets.items)) }
{
    nets_in(alloc, &placed_of(chip, design, clusters, placement, pads))
}
