//! The clusters of a design in a better order, and their placement.
ghost use Rattle.std.specs.Prelude.{◌≡◌, ◌≤◌, IfOk};
ghost use Rattle.ice_anneal.specs.Least.{IsSwapLeast};
ghost use Rattle.ice_cells.specs.Clusters.{clusters_of};
ghost use Rattle.ice_cells.specs.Ranks.{clusters_by};
ghost use Rattle.ice_place_length.specs.Plans.{plan_of};
ghost use Rattle.ice_place.specs.Place.{chunks_of};
ghost use Rattle.ice_place_defs.specs.Length.{length_of};
ghost use Rattle.ice_sites.specs.Legal.{IsLegal};
ghost use Rattle.ice_sites.specs.Stretches.{stretches_of};

use crate::measuring::is_no_longer;
use crate::ordering::{Ordered, by_ranks, in_own_order};
use ice_anneal::improve_from;
use ice_anneal_ranks::{Arranged, arrange};
use ice_base::{NoMemory, TileAt};
use ice_cells::{Clusters, Design};
use ice_chip::Chip;
use ice_pads::Pads;
use ice_place::Placement;
use ice_sites::Sites;
use std::alloc::Global;

/// The clusters of a design by ranks, and the tile of each.
#[derive(Drop)]
pub struct Settled {
    /// The ranks, and the clusters by them.
    pub ordered: Ordered,
    /// The tile of each cluster.
    pub placement: Placement,
}

// The placement that is kept of clusters: improved from the tiles that are wanted for them, where there are any, or from the first one.
fn improved(
    alloc: Global,
    chip: &Chip,
    sites: &Sites,
    design: &Design,
    ordered: Ordered,
    first: &Placement,
    pads: &Pads,
    wanted: &[TileAt],
) -> Result<Settled, NoMemory>
    requires sites { sites.now ≡ stretches_of chip.now }
    requires legal { IsLegal sites.now (chunks_of ordered.clusters.list) first.now }
    ensures same { IfOk result (λ made. made.ordered ≡ ordered) }
    ensures legal { IfOk result (λ made.
        IsLegal sites.now (chunks_of made.ordered.clusters.list) made.placement) }
    ensures shorter { IfOk result (λ made.
        length_of chip.now (plan_of ordered.clusters design.now made.placement pads.now)
        ≤ length_of chip.now (plan_of ordered.clusters design.now first.now pads.now)) }
    ensures least { IfOk result (λ made. IsSwapLeast
        (λ at. length_of chip.now (plan_of made.ordered.clusters design.now at pads.now))
        (chunks_of made.ordered.clusters.list) sites.now made.placement) }
{
    let placement = improve_from(
        alloc,
        chip,
        first,
        sites,
        &ordered.clusters,
        design,
        pads,
        wanted,
    )?;
    Ok(Settled { ordered, placement })
}

/// From the clusters of a design and their first placement: clusters by ranks, and a legal placement of them that is no longer than the
/// first one, and that no exchange and no move makes shorter. Ranks and tiles are looked for by tries from the seed, and the placement is
/// improved from there; where that is longer than the first placement, the clusters stay as they are, and that one is improved. It fails
/// for want of memory alone.
pub fn settle(
    alloc: Global,
    chip: &Chip,
    sites: &Sites,
    design: &Design,
    clusters: Clusters,
    first: Placement,
    pads: &Pads,
    seed: u64,
) -> Result<Settled, NoMemory>
    requires sites { sites.now ≡ stretches_of chip.now }
    requires clusters { clusters ≡ clusters_of design.now }
    requires legal { IsLegal sites.now (chunks_of clusters.list) first }
    ensures clusters { IfOk result (λ made.
        made.ordered.clusters ≡ clusters_by made.ordered.ranks design.now) }
    ensures legal { IfOk result (λ made.
        IsLegal sites.now (chunks_of made.ordered.clusters.list) made.placement) }
    ensures shorter { IfOk result (λ made.
        length_of chip.now (plan_of made.ordered.clusters design.now made.placement pads.now)
        ≤ length_of chip.now (plan_of clusters design.now first pads.now)) }
    ensures least { IfOk result (λ made. IsSwapLeast
        (λ at. length_of chip.now (plan_of made.ordered.clusters design.now at pads.now))
        (chunks_of made.ordered.clusters.list) sites.now made.placement) }
{
    let Arranged { ranks, tiles } = arrange(
        alloc, chip, sites, design, &clusters, &first, pads, seed,
    )?;
    let ordered = by_ranks(alloc, design, &clusters, ranks)?;
    let made = improved(
        alloc,
        chip,
        sites,
        design,
        ordered,
        &first,
        pads,
        tiles.as_slice(),
    )?;
    let is_kept = is_no_longer(
        alloc,
        chip,
        design,
        &clusters,
        &first,
        &made.ordered.clusters,
        &made.placement,
        pads,
    )?;
    if is_kept {
        return Ok(made);
    }
    let ordered = in_own_order(alloc, design, clusters);
    improved(alloc, chip, sites, design, ordered, &first, pads, &[])
}
