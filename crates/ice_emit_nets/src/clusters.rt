//! All sinks of a placed design.
ghost use Rattle.std.specs.Prelude.{◌≡◌, ◌++◌, [], IfOk, OnOk};
ghost use Rattle.std.specs.Option.{option_map_or};
ghost use Rattle.ice_place_defs.specs.Loads.{clusters_give};
ghost use Rattle.ice_emit_nets.specs.Ends.{cell_ends, control_ends, ends};
ghost use Rattle.ice_emit_nets.specs.Given.{cluster_ends};
ghost use Rattle.ice_place_defs.specs.Plan.{plan_in};

use crate::cells::{push_control, push_slots};
use crate::pads::{push_globals, push_pads};
use crate::placed::tile_at;
use ice_base::{NoMemory, Sink, TileAt};
use ice_cells::{Cluster, LogicCell, Root};
use ice_chip::Chip;
use ice_place_defs::Placed;
use std::alloc::Global;

// Adds the sinks of a cluster: those of its cells, and then those of what they share.
fn push_cluster(
    alloc: Global,
    ends: &mut Vec<(Root, Sink)>,
    chip: &Chip,
    cells: &[LogicCell],
    cluster: &Cluster,
    tile: TileAt,
) -> Result<(), NoMemory>
    ensures { OnOk result
        (ends.new.items ≡ ends.old.items ++ cluster_ends chip.now cells.now cluster.now tile) }
{
    push_slots(alloc, ends, chip, cells, tile, cluster.cells.as_slice())?;
    push_control(alloc, ends, chip, tile, cluster.control)?;
    Ok(())
}

// The same, if there is a tile for it.
fn push_cluster_at(
    alloc: Global,
    ends: &mut Vec<(Root, Sink)>,
    chip: &Chip,
    cells: &[LogicCell],
    cluster: &Cluster,
    tile: Option<TileAt>,
) -> Result<(), NoMemory>
    ensures { OnOk result (ends.new.items
        ≡ ends.old.items ++ option_map_or (cluster_ends chip.now cells.now cluster.now) tile []) }
{
    match tile {
        None => Ok(()),
        Some(tile) => push_cluster(alloc, ends, chip, cells, cluster, tile),
    }
}

// Adds the sinks of clusters in these tiles.
fn push_clusters(
    alloc: Global,
    ends: &mut Vec<(Root, Sink)>,
    chip: &Chip,
    cells: &[LogicCell],
    tiles: &[TileAt],
    clusters: &[Cluster],
) -> Result<(), NoMemory>
    ensures { OnOk result (ends.new.items ≡ ends.old.items ++ clusters_give (cell_ends chip.now)
        (control_ends chip.now) cells.now tiles.now clusters.now) }
{
    for (k, cluster) in clusters.iter().enumerate() {
        push_cluster_at(alloc, ends, chip, cells, cluster, tile_at(tiles, k))?;
    }
    Ok(())
}

// All sinks, with what they read: those of the pads, of the global buffers, and then cluster by cluster.
pub(crate) fn ends_of(alloc: Global, placed: &Placed<'_>) -> Result<Vec<(Root, Sink)>, NoMemory>
    ensures { IfOk result (λ all. all.items ≡ ends placed.now.chip.now (plan_in placed.now)) }
{
    let design = placed.design;
    let mut all = Vec::new(alloc);
    push_pads(alloc, &mut all, placed.chip, placed.ports, design.pads())?;
    push_globals(
        alloc,
        &mut all,
        placed.chip,
        placed.globals,
        placed.direct,
        design.globals(),
    )?;
    push_clusters(
        alloc,
        &mut all,
        placed.chip,
        design.cells(),
        placed.tiles,
        placed.clusters,
    )?;
    Ok(all)
}
