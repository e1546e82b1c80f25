//! The first placement.
ghost use Rattle.std.specs.Prelude.{◌≡◌, ◌≤◌, ◌++◌, List, IfOk, OnOk, length, map, take, flat_map};
ghost use Rattle.std.specs.List.{All};
ghost use Rattle.ice_base.specs.declared.number.TileAt.{TileAt};
ghost use Rattle.ice_cells.specs.Clusterings.{IsClustering};
ghost use Rattle.ice_sites.specs.Legal.{IsLegal};
ghost use Rattle.ice_place.specs.Place.{AreStretches, lengths, chunks_of, sites_count, joined, placed, fitted, place_by, place_of};
ghost use Rattle.ice_place.specs.Views.{tiles_of, fitting};
ghost use Rattle.ice_place.specs.Answers.{Answers};

use crate::fit::{Fits, begin, fit_runs, order};
use crate::refusal::{MOST_SITES, longest, refused};
use crate::{PlaceFault, Placement};
use ice_base::{NoMemory, TileAt, to_u32};
use ice_cells::{Clusters, Design, Run};
use ice_sites::{Sites, Stretch};
use std::alloc::Global;

// How many cells each run has.
fn lengths(alloc: Global, runs: &[Run]) -> Result<Vec<u32>, NoMemory>
    ensures { IfOk result (λ made. made.items ≡ lengths runs.now) }
{
    let mut made = Vec::new(alloc);
    for run in runs {
        made.push(to_u32(run.cells.as_slice().len())?)?;
    }
    Ok(made)
}

// Adds tiles.
fn add(tiles: &mut Vec<TileAt>, more: &[TileAt]) -> Result<(), NoMemory>
    ensures { OnOk result (tiles.new.items ≡ tiles.old.items ++ more.now) }
{
    for tile in more {
        tiles.push(*tile)?;
    }
    Ok(())
}

// Adds the tiles of several slices.
fn add_all(tiles: &mut Vec<TileAt>, slices: &[&[TileAt]]) -> Result<(), NoMemory>
    ensures { OnOk result (tiles.new.items ≡ tiles.old.items ++ joined (tiles_of slices.now)) }
{
    for slice in slices {
        add(tiles, slice)?;
    }
    Ok(())
}

// The sites of the runs in order, and then those that are left, as many as there are clusters.
fn placed(alloc: Global, fits: &Fits<'_>, need: u32) -> Result<Vec<TileAt>, NoMemory>
    ensures { IfOk result (λ tiles. tiles.items ≡ placed need (fitting fits.now)) }
{
    let mut tiles = Vec::new(alloc);
    add_all(&mut tiles, fits.taken.as_slice())?;
    add_all(&mut tiles, fits.left.as_slice())?;
    tiles.truncate(need as usize);
    Ok(tiles)
}

// The placement of clusters, of which runs of these lengths are cut into chunks.
fn place(
    alloc: Global,
    stretches: &[Stretch],
    runs: &[u32],
    need: u32,
) -> Result<Placement, PlaceFault>
    requires each { All (λ (s : List TileAt). length s ≤ MOST_SITES) stretches.now }
    requires few { sites_count stretches.now ≤ MOST_SITES }
    ensures { Answers result (place_by stretches.now runs.now need) }
{
    if let Some(fault) = refused(stretches, runs, need) {
        return Err(fault);
    }
    let order = order(alloc, runs, longest(stretches) as usize)?;
    let mut fits = begin(alloc, stretches, runs.len())?;
    fit_runs(runs, order.as_slice(), &mut fits)?;
    Ok(Placement::from_vec(placed(alloc, &fits, need)?))
}

/// A first placement of the clusters of a design: each run in the first stretch with room left for its chunks, at its lowest
/// free place, runs of most chunks first and ties in order; then the other clusters on the sites that are left.
///
/// # Errors
/// A run of more cells than the longest stretch has room for, more clusters than sites, the first run for which no stretch
/// has room left, in this order; want of memory.
pub fn first_place(
    alloc: Global,
    sites: &Sites,
    clusters: &Clusters,
    design: &Design,
) -> Result<Placement, PlaceFault>
    requires sites { AreStretches sites.now }
    requires clusters { IsClustering design.now clusters.now }
    ensures answers { Answers result (place_of sites.now clusters.now design.now) }
    ensures legal { IfOk result (λ placement.
        IsLegal sites.now (chunks_of clusters.now.list) placement) }
{
    let runs = lengths(alloc, design.runs())?;
    let need = to_u32(clusters.list().len())?;
    place(alloc, sites.stretches(), runs.as_slice(), need)
}
