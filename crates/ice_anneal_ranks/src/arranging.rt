//! The arrangement that is found.

use crate::middles::Middles;
use crate::search::Search;
use ice_anneal_moves::{Bundles, Movers, Signals, State, Units, movers_of, nets_of};
use ice_anneal_seats::{Floor, Grid, Seats};
use ice_anneal_ways::{Pulls, Ways};
use ice_base::{NoMemory, TileAt, to_u32};
use ice_cells::{Clusters, Design, Items};
use ice_chip::Chip;
use ice_pads::Pads;
use ice_place::Placement;
use ice_sites::Sites;
use rand_core::SeedableRng;
use rand_pcg::Pcg32;
use std::alloc::Global;

/// Where clusters are to stand, and which cells in them. Nothing is claimed of either.
#[derive(Drop)]
pub struct Arranged {
    /// Ranks of the cells.
    pub ranks: Items<u32>,
    /// A tile for each cluster.
    pub tiles: Items<TileAt>,
}

// Which cells may move.
#[derive(Clone, Copy)]
enum Moving {
    // Those that may stand in each other's slots.
    Cells,
    // None: clusters alone move.
    Clusters,
}

// What is found by tries from a seed.
fn find(
    alloc: Global,
    chip: &Chip,
    sites: &Sites,
    design: &Design,
    clusters: &Clusters,
    placement: &Placement,
    pads: &Pads,
    moving: Moving,
    seed: u64,
) -> Result<Arranged, NoMemory> {
    let cells = design.cells();
    let grid = Grid::of_chip(chip);
    let floor = Floor::new(alloc, grid, sites)?;
    let seats = Seats::new(alloc, &floor, clusters.list(), placement, cells.len())?;
    let movers = match moving {
        Moving::Cells => movers_of(alloc, design, clusters.list(), &seats)?,
        Moving::Clusters => Movers::none(alloc),
    };
    let nets = nets_of(alloc, chip, design, pads, grid, &seats)?;
    let signals = Signals::new(alloc, to_u32(pads.ports().len())?, cells)?;
    let bundles = Bundles::new(alloc, seats.clusters(), &nets)?;
    let units = Units::new(alloc, clusters.list())?;
    let pulls = Pulls::new(alloc, cells.len())?;
    let ways = Ways::new(alloc, grid, design, pads)?;
    let middles = Middles::new(alloc, cells.len(), seats.clusters())?;
    let state = State {
        cells,
        floor,
        seats,
        units,
        nets,
        bundles,
        signals,
        pulls,
        pulled: 0,
    };
    let mut search = Search {
        movers,
        state,
        ways,
        middles,
        is_still: false,
    };
    search.begin(alloc)?;
    search.anneal(&mut Pcg32::seed_from_u64(seed));
    Ok(Arranged {
        ranks: search.state.seats.ranks(alloc)?,
        tiles: search.state.seats.tiles(alloc, &search.state.floor)?,
    })
}

/// From clusters of a design in a placement: ranks of its cells, and tiles for the clusters by these ranks, by which the wires are shorter.
/// The ranks are the numbers of the slots that the cells came to, 8 for each cluster, by tries that are drawn from the seed. Cells of runs
/// stay in their slots, plain cells change places with plain cells, and flip-flops with flip-flops that are driven alike; clusters change
/// places with each other and with free sites, and runs as a whole. The number of tries is fixed before the first. It fails for want of
/// memory alone.
pub fn arrange(
    alloc: Global,
    chip: &Chip,
    sites: &Sites,
    design: &Design,
    clusters: &Clusters,
    placement: &Placement,
    pads: &Pads,
    seed: u64,
) -> Result<Arranged, NoMemory> {
    find(
        alloc,
        chip,
        sites,
        design,
        clusters,
        placement,
        pads,
        Moving::Cells,
        seed,
    )
}

/// The same with cells that stay where they are: tiles for the clusters as they are, by which the wires are shorter.
pub fn arrange_clusters(
    alloc: Global,
    chip: &Chip,
    sites: &Sites,
    design: &Design,
    clusters: &Clusters,
    placement: &Placement,
    pads: &Pads,
    seed: u64,
) -> Result<Items<TileAt>, NoMemory> {
    let found = find(
        alloc,
        chip,
        sites,
        design,
        clusters,
        placement,
        pads,
        Moving::Clusters,
        seed,
    )?;
    Ok(found.tiles)
}
