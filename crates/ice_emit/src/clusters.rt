//! The settings of clusters.
ghost use Rattle.std.specs.Prelude.{◌≡◌, ◌++◌, [], Some, slice_get, OnOk};
ghost use Rattle.std.specs.Option.{option_map_or};
ghost use Rattle.ice_chip.specs.Names.{cell_function};
ghost use Rattle.ice_place_defs.specs.Loads.{slot_gives, slots_give};
ghost use Rattle.ice_emit_defs.specs.Functions.{cell_settings, is_set, edge_settings, carry_settings, clusters_settings};
ghost use Rattle.ice_emit.specs.Routed.{IsRouted, held_in, cluster_gives};
ghost use Rattle.ice_emit_settings.specs.Views.{views};

use crate::arriving::written_table;
use crate::routed::{Routed, tile_at};
use ice_base::{NoMemory, TileAt};
use ice_cells::{Cluster, Control, LogicCell, Run};
use ice_chip::TileFunction;
use ice_emit_bits::Setting;
use ice_emit_settings::{push_cell, push_if};

// The cell of a number.
fn cell_at(cells: &[LogicCell], c: u32) -> Option<LogicCell>
    ensures { result ≡ slice_get cells.now c }
{
    cells.get(c as usize).copied()
}

// The number of a slot, by which the slot's function is named: the name has the last digit of a number alone.
fn named_by(i: usize) -> u8
    ensures { cell_function result ≡ cell_function i }
{
    (i % 10) as u8
}

// Adds the settings of a cell in a slot.
fn push_placed(
    made: &mut Vec<Setting>,
    routed: &Routed<'_>,
    tile: TileAt,
    i: usize,
    cell: &LogicCell,
) -> Result<(), NoMemory>
    requires { IsRouted routed.now }
    ensures { OnOk result (views made.new.items ≡ views made.old.items
        ++ cell_settings routed.now.placed.chip.now (held_in routed.now) tile i cell.now) }
{
    let table = written_table(routed, tile, i, cell);
    push_cell(made, tile, named_by(i), table, cell)?;
    Ok(())
}

// Adds the settings of the cell of a number.
fn push_numbered(
    made: &mut Vec<Setting>,
    routed: &Routed<'_>,
    tile: TileAt,
    i: usize,
    c: u32,
) -> Result<(), NoMemory>
    requires { IsRouted routed.now }
    ensures { OnOk result (views made.new.items ≡ views made.old.items
        ++ slot_gives (cell_settings routed.now.placed.chip.now (held_in routed.now))
        routed.now.placed.design.now.cells tile i (Some c)) }
{
    match cell_at(routed.placed.design.cells(), c) {
        None => Ok(()),
        Some(cell) => push_placed(made, routed, tile, i, &cell),
    }
}

// Adds the settings of the cell of a slot.
fn push_slot(
    made: &mut Vec<Setting>,
    routed: &Routed<'_>,
    tile: TileAt,
    i: usize,
    slot: Option<u32>,
) -> Result<(), NoMemory>
    requires { IsRouted routed.now }
    ensures { OnOk result (views made.new.items ≡ views made.old.items
        ++ slot_gives (cell_settings routed.now.placed.chip.now (held_in routed.now))
        routed.now.placed.design.now.cells tile i slot) }
{
    match slot {
        None => Ok(()),
        Some(c) => push_numbered(made, routed, tile, i, c),
    }
}

// Adds the settings of the cells of a tile.
fn push_slots(
    made: &mut Vec<Setting>,
    routed: &Routed<'_>,
    tile: TileAt,
    slots: &[Option<u32>],
) -> Result<(), NoMemory>
    requires { IsRouted routed.now }
    ensures { OnOk result (views made.new.items ≡ views made.old.items
        ++ slots_give (cell_settings routed.now.placed.chip.now (held_in routed.now))
        routed.now.placed.design.now.cells tile 0 slots.now) }
{
    for (i, slot) in slots.iter().enumerate() {
        push_slot(made, routed, tile, i, *slot)?;
    }
    Ok(())
}

// Adds the edge of a tile's clock.
fn push_edge(
    made: &mut Vec<Setting>,
    tile: TileAt,
    control: Option<Control>,
) -> Result<(), NoMemory>
    ensures { OnOk result
        (views made.new.items ≡ views made.old.items ++ edge_settings tile control) }
{
    match control {
        None => Ok(()),
        Some(control) => push_if(made, control.falling, tile, TileFunction::FallingClock, 0),
    }
}

// Whether 1 comes into the first cell of the run of a number.
fn is_set(runs: &[Run], r: u32) -> bool
    ensures { result ≡ is_set runs.now r }
{
    match runs.get(r as usize) {
        None => false,
        Some(run) => run.set,
    }
}

// Adds the carry into a run, of which the tile has the first chunk.
fn push_entry(
    made: &mut Vec<Setting>,
    runs: &[Run],
    tile: TileAt,
    chunk: Option<(u32, u32)>,
) -> Result<(), NoMemory>
    ensures { OnOk result
        (views made.new.items ≡ views made.old.items ++ carry_settings runs.now tile chunk) }
{
    match chunk {
        Some((r, 0)) => push_if(made, is_set(runs, r), tile, TileFunction::CarrySet, 0),
        _ => Ok(()),
    }
}

// Adds the settings of a cluster.
fn push_cluster(
    made: &mut Vec<Setting>,
    routed: &Routed<'_>,
    cluster: &Cluster,
    tile: TileAt,
) -> Result<(), NoMemory>
    requires { IsRouted routed.now }
    ensures { OnOk result
        (views made.new.items ≡ views made.old.items ++ cluster_gives routed.now cluster.now tile) }
{
    push_slots(made, routed, tile, cluster.cells.as_slice())?;
    push_edge(made, tile, cluster.control)?;
    push_entry(made, routed.placed.design.runs(), tile, cluster.run)?;
    Ok(())
}

// The same, if there is a tile for it.
fn push_cluster_at(
    made: &mut Vec<Setting>,
    routed: &Routed<'_>,
    cluster: &Cluster,
    tile: Option<TileAt>,
) -> Result<(), NoMemory>
    requires { IsRouted routed.now }
    ensures { OnOk result (views made.new.items
        ≡ views made.old.items ++ option_map_or (cluster_gives routed.now cluster.now) tile []) }
{
    match tile {
        None => Ok(()),
        Some(tile) => push_cluster(made, routed, cluster, tile),
    }
}

// Adds the settings of clusters in these tiles.
fn push_each(
    made: &mut Vec<Setting>,
    routed: &Routed<'_>,
    tiles: &[TileAt],
    clusters: &[Cluster],
) -> Result<(), NoMemory>
    requires { IsRouted routed.now }
    ensures { OnOk result
        (views made.new.items ≡ views made.old.items ++ clusters_settings routed.now.placed.chip.now
        (held_in routed.now) routed.now.placed.design.now tiles.now clusters.now) }
{
    for (k, cluster) in clusters.iter().enumerate() {
        push_cluster_at(made, routed, cluster, tile_at(tiles, k))?;
    }
    Ok(())
}

/// Adds the settings of all clusters.
pub fn push_clusters(made: &mut Vec<Setting>, routed: &Routed<'_>) -> Result<(), NoMemory>
    requires { IsRouted routed.now }
    ensures { OnOk result (views made.new.items
        ≡ views made.old.items ++ clusters_settings routed.now.placed.chip.now (held_in routed.now)
        routed.now.placed.design.now routed.now.placed.tiles.now routed.now.placed.clusters.now) }
{
    push_each(made, routed, routed.placed.tiles, routed.placed.clusters)?;
    Ok(())
}
