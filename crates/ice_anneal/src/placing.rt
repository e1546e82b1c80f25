//! Improving the placement of a design.
ghost use Rattle.std.specs.Prelude.{◌≡◌, ◌≤◌, List, IfOk, length};
ghost use Rattle.std.specs.List.{All};
ghost use Rattle.ice_base.specs.declared.number.TileAt.{TileAt};
ghost use Rattle.ice_sites.specs.Legal.{IsLegal};
ghost use Rattle.ice_sites.specs.Stretches.{stretches_of};
ghost use Rattle.ice_place_defs.specs.Length.{length_of};
ghost use Rattle.ice_place_length.specs.Plans.{plan_of};
ghost use Rattle.ice_place.specs.Place.{chunks_of};
ghost use Rattle.ice_anneal_board.specs.Length.{IsNet, wire_length};
ghost use Rattle.ice_anneal.specs.Least.{IsSwapLeast};

use crate::improving::improve_nets;
use ice_anneal_board::NetNodes;
use ice_anneal_nets::measuring_nets;
use ice_anneal_ranks::arrange_clusters;
use ice_base::{NoMemory, TileAt};
use ice_cells::{Clusters, Design};
use ice_chip::Chip;
use ice_pads::Pads;
use ice_place::Placement;
use ice_place_defs::Placed;
use ice_sites::Sites;
use std::alloc::Global;

/// Nets by which placements of the clusters are measured. It fails for want of memory alone.
pub fn nets_in(
    alloc: Global,
    chip: &Chip,
    clusters: &Clusters,
    design: &Design,
    pads: &Pads,
) -> Result<Vec<NetNodes>, NoMemory>
    ensures nets { IfOk result (λ nets. All (IsNet (length clusters.now.list)) nets.items) }
    ensures lengths { IfOk result (λ nets. (at : List TileAt) → length at ≡ length clusters.now.list
        → wire_length nets.items at
        ≡ length_of chip.now (plan_of clusters.now design.now at pads.now)) }
{
    // No tile is named: the nets are those of any placement.
    let placed = Placed {
        chip,
        design,
        clusters: clusters.list(),
        tiles: &[],
        ports: pads.ports(),
        globals: pads.globals(),
        direct: pads.direct(),
    };
    let nets = measuring_nets(alloc, &placed)?;
    Ok(nets)
}

/// A placement that is legal, no longer than the argument, and that no exchange of two clusters and no move of one to a free
/// site makes shorter, where these are of no run of several chunks. Exchanges and moves that make the placement shorter are made
/// from the tiles that are wanted for the clusters, where these are a legal placement from which they lead to one that is no longer,
/// and else from the argument. It fails for want of memory alone.
pub fn improve_from(
    alloc: Global,
    chip: &Chip,
    placement: &Placement,
    sites: &Sites,
    clusters: &Clusters,
    design: &Design,
    pads: &Pads,
    wanted: &[TileAt],
) -> Result<Placement, NoMemory>
    requires sites { sites.now ≡ stretches_of chip.now }
    requires legal { IsLegal sites.now (chunks_of clusters.now.list) placement.now }
    ensures legal { IfOk result (λ found. IsLegal sites.now (chunks_of clusters.now.list) found) }
    ensures shorter { IfOk result (λ found.
        length_of chip.now (plan_of clusters.now design.now found pads.now)
        ≤ length_of chip.now (plan_of clusters.now design.now placement.now pads.now)) }
    ensures least { IfOk result (λ found.
        IsSwapLeast (λ at. length_of chip.now (plan_of clusters.now design.now at pads.now))
        (chunks_of clusters.now.list) sites.now found) }
{
    let nets = nets_in(alloc, chip, clusters, design, pads)?;
    let found = improve_nets(alloc, nets, placement, sites, clusters, wanted)?;
    Ok(found)
}

/// A placement that is legal, no longer than the argument, and that no exchange of two clusters and no move of one to a free
/// site makes shorter, where these are of no run of several chunks. A number of tries by the seed, which is fixed before the first, goes
/// before a descent of exchanges and moves that make the placement shorter. It fails for want of memory alone.
pub fn improve(
    alloc: Global,
    chip: &Chip,
    placement: Placement,
    sites: &Sites,
    clusters: &Clusters,
    design: &Design,
    pads: &Pads,
    seed: u64,
) -> Result<Placement, NoMemory>
    requires sites { sites.now ≡ stretches_of chip.now }
    requires legal { IsLegal sites.now (chunks_of clusters.now.list) placement }
    ensures legal { IfOk result (λ found. IsLegal sites.now (chunks_of clusters.now.list) found) }
    ensures shorter { IfOk result (λ found.
        length_of chip.now (plan_of clusters.now design.now found pads.now)
        ≤ length_of chip.now (plan_of clusters.now design.now placement pads.now)) }
    ensures least { IfOk result (λ found.
        IsSwapLeast (λ at. length_of chip.now (plan_of clusters.now design.now at pads.now))
        (chunks_of clusters.now.list) sites.now found) }
{
    let tiles = arrange_clusters(alloc, chip, sites, design, clusters, &placement, pads, seed)?;
    let found = improve_from(
        alloc,
        chip,
        &placement,
        sites,
        clusters,
        design,
        pads,
        tiles.as_slice(),
    )?;
    Ok(found)
}
