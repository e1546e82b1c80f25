//! Placements of a design.
ghost use Rattle.std.specs.Prelude.{◌≡◌};
ghost use Rattle.ice_cells.specs.Clusterings.{IsClustering};
ghost use Rattle.ice_sites.specs.Stretches.{stretches_of};

use crate::claims::expect_that;
use ice_anneal::improve;
use ice_cells::{Clusters, Design};
use ice_chip::Chip;
use ice_cluster::cluster;
use ice_pads::Pads;
use ice_place::{PlaceFault, Placement, first_place};
use ice_sites::{Sites, sites_of};
use std::alloc::Global;
use std::process::Abort;

// Fails unless this fault is said, or nothing.
fn expect_fault(rt: &impl Abort, alloc: Global, fault: &Option<PlaceFault>, wanted: &[u8]) {
    match fault {
        None => expect_that(rt, wanted.is_empty(), wanted),
        Some(fault) => {
            let text = format!(in alloc; "{fault}").expect(rt, "memory");
            expect_that(rt, text.as_bytes() == wanted, wanted);
        }
    }
}

/// Fails unless this fault of the first placement is said, or nothing where there is one.
pub fn expect_first(rt: &impl Abort, alloc: Global, chip: &Chip, design: &Design, wanted: &[u8]) {
    let sites = sites_of(alloc, chip).expect(rt, "memory");
    let clusters = cluster(alloc, design).expect(rt, "memory");
    let fault = first_place(alloc, &sites, &clusters, design).err();
    drop(clusters);
    drop(sites);
    expect_fault(rt, alloc, &fault, wanted);
    drop(fault);
}

/// What is asked of placements by so many seeds: that at least so many differ from that by the first, or that in at least so many
/// the first cluster stands elsewhere than in the first placement.
#[derive(Clone, Copy)]
pub struct Wanted {
    pub count: u64,
    pub least: u64,
    pub moves: bool,
}

// The tile of the first cluster as a number.
fn first_of(placement: &Placement) -> u64 {
    match placement.tiles().get(0) {
        None => 0,
        Some(tile) => u64::from(tile.x)
            .wrapping_mul(256)
            .wrapping_add(u64::from(tile.y)),
    }
}

// The tiles of a placement as one number.
fn sum_of(placement: &Placement) -> u64 {
    let mut sum = 0u64;
    for tile in placement.tiles() {
        let place = u64::from(tile.x)
            .wrapping_mul(256)
            .wrapping_add(u64::from(tile.y));
        sum = sum.wrapping_mul(1099511628211).wrapping_add(place);
    }
    sum
}

// The tiles of the first cluster in the first placement and in that by a seed, and all tiles of this one, as numbers.
fn placed(
    rt: &impl Abort,
    alloc: Global,
    chip: &Chip,
    sites: &Sites,
    clusters: &Clusters,
    design: &Design,
    pads: &Pads,
    seed: u64,
) -> (u64, u64, u64)
    requires sites { sites.now ≡ stretches_of chip.now }
    requires clusters { IsClustering design.now clusters.now }
{
    let first = first_place(alloc, sites, clusters, design).expect(rt, "a placement");
    let start = first_of(&first);
    let improved = improve(alloc, chip, first, sites, clusters, design, pads, seed);
    let placement = improved.expect(rt, "memory");
    (start, first_of(&placement), sum_of(&placement))
}

// Fails unless this is so of placements.
fn expect_all(
    rt: &impl Abort,
    alloc: Global,
    chip: &Chip,
    sites: &Sites,
    clusters: &Clusters,
    design: &Design,
    pads: &Pads,
    asked: Wanted,
)
    requires sites { sites.now ≡ stretches_of chip.now }
    requires clusters { IsClustering design.now clusters.now }
{
    let (_, _, sum) = placed(rt, alloc, chip, sites, clusters, design, pads, 1);
    let mut found = 0u64;
    for behind in 0..asked.count {
        let (start, end, other) = placed(
            rt,
            alloc,
            chip,
            sites,
            clusters,
            design,
            pads,
            behind + 1,
        );
        let counts = if asked.moves {
            start != end
        } else {
            other != sum
        };
        if counts {
            found = found.saturating_add(1);
        }
    }
    expect_that(rt, found >= asked.least, b"seeds");
}

/// Fails unless this is so of placements by seeds.
pub fn expect_seeds(
    rt: &impl Abort,
    alloc: Global,
    chip: &Chip,
    design: &Design,
    pads: &Pads,
    asked: Wanted,
) {
    let sites = sites_of(alloc, chip).expect(rt, "memory");
    let clusters = cluster(alloc, design).expect(rt, "memory");
    expect_all(rt, alloc, chip, &sites, &clusters, design, pads, asked);
    drop(clusters);
    drop(sites);
}
