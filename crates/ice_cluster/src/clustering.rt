//! The clusters of a design.
ghost use Rattle.std.specs.Prelude.{◌≡◌, ◌++◌, length, map, IfOk};
ghost use Rattle.ice_cells.specs.Clusters.{slots, with_slots, clusters_of, need, ends, sets_pieces};
ghost use Rattle.ice_cells.specs.Clusterings.{IsClustering, groups_by};
ghost use Rattle.ice_cells.specs.Ranks.{clusters_by};

use crate::filling::{open_lists, open_plains, open_runs};
use crate::ranking::{rank_flops, rank_plains};
use crate::sets::by_sets;
use crate::sorting::loose_cells;
use ice_base::NoMemory;
use ice_cells::{Cluster, Clusters, Control, Design, Items, LogicCell, Run, TileCells};
use std::alloc::Global;

// Opens groups of the flip-flops by their control sets, and fills them with plain cells; gives those that are left.
fn open_sets<'a>(
    alloc: Global,
    groups: &mut Vec<TileCells>,
    flops: &[(u32, Control)],
    plains: &'a [u32],
) -> Result<&'a [u32], NoMemory>
    ensures { IfOk result (λ rest. (groups.new.items, rest.now)
        ≡ ends (sets_pieces flops.now) plains.now groups.old.items) }
{
    let (sets, lists) = by_sets(alloc, flops)?;
    open_lists(alloc, groups, &sets, lists.as_slice(), plains)
}

// The groups of cells that go into one tile each, by the cells that stand in no run.
fn groups_in(
    alloc: Global,
    cells: &[LogicCell],
    runs: &[Run],
    flops: &[(u32, Control)],
    plains: &[u32],
) -> Result<Vec<TileCells>, NoMemory>
    ensures { IfOk result (λ groups.
        groups.items ≡ groups_by cells.now runs.now flops.now plains.now) }
{
    let mut groups = Vec::new(alloc);
    let rest = open_runs(alloc, &mut groups, cells, runs, plains)?;
    let rest = open_sets(alloc, &mut groups, flops, rest)?;
    open_plains(alloc, &mut groups, rest)?;
    Ok(groups)
}

// The eight slots of a tile: cells, and behind them the free slots.
fn slots_of(alloc: Global, cells: &[u32]) -> Result<Vec<Option<u32>>, NoMemory>
    ensures { IfOk result (λ made. made.items ≡ slots cells.now) }
{
    let mut slots = Vec::with_capacity(alloc, 8)?;
    for c in cells {
        slots.push(Some(*c))?;
    }
    for free in 0..8usize.saturating_sub(cells.len()) {
        slots.push(None)?;
    }
    Ok(slots)
}

// The cluster of a group.
fn cluster_of(alloc: Global, group: &TileCells) -> Result<Cluster, NoMemory>
    ensures { IfOk result (λ cluster. cluster ≡ with_slots group.now) }
{
    Ok(Cluster {
        cells: Items::from_vec(slots_of(alloc, group.cells.as_slice())?),
        control: group.control,
        run: group.run,
    })
}

// The clusters of all groups.
fn clusters_in(alloc: Global, groups: &[TileCells]) -> Result<Vec<Cluster>, NoMemory>
    ensures { IfOk result (λ clusters. clusters.items ≡ map with_slots groups.now) }
{
    let mut clusters = Vec::new(alloc);
    for group in groups {
        clusters.push(cluster_of(alloc, group)?)?;
    }
    Ok(clusters)
}

/// The clusters of a design, of its cells in the order of their ranks, whatever these are: those without one have rank 0, and those of one rank stay in
/// order. As many as it needs. It fails for want of memory alone.
pub fn cluster_by(alloc: Global, design: &Design, ranks: &[u32]) -> Result<Clusters, NoMemory>
    ensures clusters { IfOk result (λ clusters. clusters ≡ clusters_by ranks.now design.now) }
    ensures clustering { IfOk result (IsClustering design.now) }
{
    let (mut flops, mut plains) = loose_cells(alloc, design.cells(), design.runs())?;
    rank_flops(&mut flops, ranks)?;
    rank_plains(&mut plains, ranks)?;
    let groups = groups_in(
        alloc,
        design.cells(),
        design.runs(),
        flops.as_slice(),
        plains.as_slice(),
    )?;
    Ok(Clusters {
        list: Items::from_vec(clusters_in(alloc, groups.as_slice())?),
    })
}

/// The clusters of a design; as many as it needs. It fails for want of memory alone.
pub fn cluster(alloc: Global, design: &Design) -> Result<Clusters, NoMemory>
    ensures clusters { IfOk result (λ clusters. clusters ≡ clusters_of design.now) }
    ensures clustering { IfOk result (IsClustering design.now) }
    ensures need { IfOk result (λ clusters. length clusters.list ≡ need design.now) }
{
    let clusters = cluster_by(alloc, design, &[])?;
    Ok(clusters)
}
