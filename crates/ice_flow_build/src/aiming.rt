//! The graph of a build, which knows of each wire how many rows lead from it at least to the sinks of the nets.
ghost use Rattle.std.specs.Prelude.{◌≡◌, length, IfOk};
ghost use Rattle.ice_fabric.specs.Edges.{usable_rows};

use ice_base::{NoMemory, TileAt, WireNo};
use ice_bits_rows::Index;
use ice_core::Net;
use ice_fabric::fabric_by;
use ice_graph::Graph;
use std::alloc::Global;

// A table of least rows has no more sets.
const MOST_SETS: usize = 256;

// A table costs some passes over all rows, so fewer sinks than one for so many rows are searched without it. (Some 60 million instructions on the 1k
// device: a few hundred sinks that are not crowded win as much by it, and crowded ones ten times that.)
const ROWS_OF_SINK: usize = 1024;

// How many sinks the nets have.
fn sinks_of(nets: &[Net]) -> usize {
    let mut count: usize = 0;
    for net in nets {
        count = count.saturating_add(net.sinks.len());
    }
    count
}

// The number of the tile's set: a new one where the tile is met first, and that of the last one where there are as many as a table has.
fn set_of(tiles: &mut Vec<TileAt>, tile: TileAt) -> Result<u8, NoMemory> {
    for number in 0..tiles.len() {
        if tiles[number].x == tile.x && tiles[number].y == tile.y {
            return Ok(number.min(MOST_SETS - 1) as u8);
        }
    }
    if tiles.len() < MOST_SETS {
        tiles.push(tile)?;
    }
    Ok(tiles.len().saturating_sub(1).min(MOST_SETS - 1) as u8)
}

// Puts the targets of a sink into the set of the tile at which they stand.
fn join(
    graph: &Graph,
    targets: &[WireNo],
    tiles: &mut Vec<TileAt>,
    sets: &mut [Option<u8>],
) -> Result<(), NoMemory>
    ensures { length sets.new ≡ length sets.old }
{
    let Some(first) = targets.first() else {
        return Ok(());
    };
    let Some(extent) = graph.extent(*first) else {
        return Ok(());
    };
    let tile = TileAt {
        x: extent.west,
        y: extent.south,
    };
    let set = set_of(tiles, tile)?;
    for target in targets {
        if let Some(place) = sets.get_mut(target.0 as usize) {
            *place = Some(set);
        }
    }
    Ok(())
}

/// Has the graph know how many rows lead at least to the sinks of the nets, those of one tile as a set, where there are many.
///
/// # Errors
/// Want of memory alone.
pub fn aim(alloc: Global, graph: &mut Graph, nets: &[Net]) -> Result<(), NoMemory>
    ensures { graph.new ≡ graph.old }
{
    if sinks_of(nets) < graph.edges().len() / ROWS_OF_SINK {
        return Ok(());
    }
    let mut sets = vec![in alloc; None; graph.wires() as usize]?;
    let mut tiles = Vec::new(alloc);
    for net in nets {
        for sink in net.sinks.iter() {
            join(graph, sink.targets(), &mut tiles, &mut sets)?;
        }
    }
    let count = tiles.len();
    graph.aim(alloc, sets, count)
}

/// The graph of the usable rows of an indexed chip, which knows how far the sinks of the nets are.
///
/// # Errors
/// Want of memory alone.
pub fn aimed_fabric(alloc: Global, index: &Index<'_>, nets: &[Net]) -> Result<Graph, NoMemory>
    ensures wires { IfOk result (λ graph. graph.wires ≡ index.now.chip.now.wires) }
    ensures edges { IfOk result (λ graph. graph.edges ≡ usable_rows index.now.chip.now) }
{
    let mut graph = fabric_by(alloc, index)?;
    aim(alloc, &mut graph, nets)?;
    Ok(graph)
}
