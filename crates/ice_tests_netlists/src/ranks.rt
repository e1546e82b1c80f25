//! Ranks of a design's cells.

use crate::claims::expect_that;
use ice_anneal_ranks::{Arranged, arrange};
use ice_cells::{Clusters, Design, Items, control_at};
use ice_chip::Chip;
use ice_cluster::cluster;
use ice_pads::Pads;
use ice_place::{Placement, first_place};
use ice_sites::{Sites, sites_of};
use std::alloc::Global;
use std::process::Abort;

// The cell in the slot of a number, 8 for each cluster.
fn cell_in(clusters: &Clusters, slot: u32) -> Option<u32> {
    let cluster = clusters.list().get((slot / 8) as usize)?;
    let cell = cluster.cells.as_slice().get((slot % 8) as usize)?;
    *cell
}

// Whether each cell comes to the slot of one that is driven alike.
fn are_alike(design: &Design, clusters: &Clusters, ranks: &[u32]) -> bool {
    let cells = design.cells();
    let mut cell = 0u32;
    for rank in ranks {
        match cell_in(clusters, *rank) {
            Some(other) if control_at(cells, other) == control_at(cells, cell) => {}
            _ => return false,
        }
        cell = cell.saturating_add(1);
    }
    ranks.len() == cells.len()
}

// Ranks by a seed.
fn ranks_by(
    rt: &impl Abort,
    alloc: Global,
    chip: &Chip,
    sites: &Sites,
    design: &Design,
    clusters: &Clusters,
    placement: &Placement,
    pads: &Pads,
    seed: u64,
) -> Items<u32> {
    let found = arrange(alloc, chip, sites, design, clusters, placement, pads, seed);
    let Arranged { ranks, .. } = found.expect(rt, "memory");
    ranks
}

// Fails unless ranks in a placement are as they are to be.
fn expect_in(
    rt: &impl Abort,
    alloc: Global,
    chip: &Chip,
    sites: &Sites,
    design: &Design,
    clusters: &Clusters,
    placement: &Placement,
    pads: &Pads,
) {
    let ranks = ranks_by(rt, alloc, chip, sites, design, clusters, placement, pads, 1);
    let again = ranks_by(rt, alloc, chip, sites, design, clusters, placement, pads, 1);
    let other = ranks_by(rt, alloc, chip, sites, design, clusters, placement, pads, 2);
    expect_that(rt, ranks.as_slice() == again.as_slice(), b"same seed");
    expect_that(rt, ranks.as_slice() != other.as_slice(), b"another seed");
    let are_alike = are_alike(design, clusters, ranks.as_slice());
    expect_that(rt, are_alike, b"classes");
}

/// Fails unless ranks are the same by the same seed and others by another, and each cell comes to the slot of one that is driven
/// alike.
pub fn expect_ranks(rt: &impl Abort, alloc: Global, chip: &Chip, design: &Design, pads: &Pads) {
    let sites = sites_of(alloc, chip).expect(rt, "memory");
    let clusters = cluster(alloc, design).expect(rt, "memory");
    let placement = first_place(alloc, &sites, &clusters, design).expect(rt, "a placement");
    expect_in(rt, alloc, chip, &sites, design, &clusters, &placement, pads);
    drop(placement);
    drop(clusters);
    drop(sites);
}
