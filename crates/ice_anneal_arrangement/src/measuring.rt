//! The wire length of a placement, by nets of nodes.
ghost use Rattle.std.specs.Prelude.{◌≡◌, ◌≤◌, ◌<◌, ◌^◌, true, IfOk, length};
ghost use Rattle.std.specs.List.{All};
ghost use Rattle.ice_anneal_board.specs.Length.{IsNet, wire_length};
ghost use Rattle.ice_place_length.specs.Plans.{plan_of};
ghost use Rattle.ice_place_defs.specs.Length.{length_of};

use ice_anneal::nets_in;
use ice_anneal_board::{NetNodes, length_of_net};
use ice_base::{NoMemory, TileAt, to_u32};
use ice_cells::{Clusters, Design};
use ice_chip::Chip;
use ice_pads::Pads;
use ice_place::Placement;
use std::alloc::Global;

// The sum of the lengths of nets.
fn sum_of(at: &[TileAt], nets: &[NetNodes]) -> u64
    requires nets { All (IsNet (length at.now)) nets.now }
    requires few { length nets.now < 2 ^ 32 }
    ensures { result ≡ wire_length nets.now at.now }
{
    let mut total = 0u64;
    for net in nets {
        total += length_of_net(at, net.nodes.as_slice());
    }
    total
}

// The wire length of a placement, in the time of its nodes.
fn length_on(
    alloc: Global,
    chip: &Chip,
    clusters: &Clusters,
    design: &Design,
    placement: &Placement,
    pads: &Pads,
) -> Result<u64, NoMemory>
    requires { length placement.now ≡ length clusters.now.list }
    ensures { IfOk result (λ n.
        n ≡ length_of chip.now (plan_of clusters.now design.now placement.now pads.now)) }
{
    let nets = nets_in(alloc, chip, clusters, design, pads)?;
    let number = to_u32(nets.len())?;
    let total = sum_of(placement.tiles(), nets.as_slice());
    Ok(total)
}

/// Whether other clusters in a placement have no longer wires than these in theirs. It fails for want of memory alone.
pub fn is_no_longer(
    alloc: Global,
    chip: &Chip,
    design: &Design,
    clusters: &Clusters,
    placement: &Placement,
    others: &Clusters,
    place: &Placement,
    pads: &Pads,
) -> Result<bool, NoMemory>
    requires clusters { length placement.now ≡ length clusters.now.list }
    requires others { length place.now ≡ length others.now.list }
    ensures { IfOk result (λ b. b ≡ true
        → length_of chip.now (plan_of others.now design.now place.now pads.now)
        ≤ length_of chip.now (plan_of clusters.now design.now placement.now pads.now)) }
{
    let now = length_on(alloc, chip, others, design, place, pads)?;
    let before = length_on(alloc, chip, clusters, design, placement, pads)?;
    Ok(now <= before)
}
