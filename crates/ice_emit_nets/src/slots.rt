//! The slots of cells.
ghost use Rattle.std.specs.Prelude.{◌≡◌, None, Some, [], length, replicate, IfOk};
ghost use Rattle.std.specs.Option.{option_map_or};
ghost use Rattle.ice_cells.specs.Tables.{keep, put_at, table};
ghost use Rattle.ice_place_defs.specs.Plan.{slot_of, plan_in};
ghost use Rattle.ice_emit_nets.specs.Sides.{sides};
ghost use Rattle.ice_emit_nets.specs.Slots.{held, held_slot, noted, tile_slots, cluster_slots};

use crate::placed::tile_at;
use ice_base::{NoMemory, TileAt};
use ice_cells::Cluster;
use ice_place_defs::Placed;
use std::alloc::Global;

// What is known of the slot of a cell stays, and where nothing is known it is this one.
fn kept(
    known: Option<(TileAt, usize)>,
    tile: TileAt,
    i: usize,
    _cell: u32,
) -> Option<(TileAt, usize)>
    ensures { result ≡ keep held_slot known (held tile i (Some _cell)) }
{
    match known {
        Some(slot) => Some(slot),
        None => Some((tile, i)),
    }
}

// Notes the slot of the cell that a slot holds.
fn note_slot(slots: &mut Vec<Option<(TileAt, usize)>>, tile: TileAt, i: usize, cell: Option<u32>)
    ensures { slots.new.items
        ≡ put_at (keep held_slot) None slots.old.items (held tile i cell) cell }
{
    if let Some(c) = cell {
        let place = c as usize;
        if place < slots.len() {
            slots[place] = kept(slots[place], tile, i, c);
        }
    }
}

// Notes the slots of the cells of a tile.
fn note_tile(slots: &mut Vec<Option<(TileAt, usize)>>, tile: TileAt, cells: &[Option<u32>])
    ensures { slots.new.items ≡ noted slots.old.items (tile_slots tile 0 cells.now) }
{
    for (i, cell) in cells.iter().enumerate() {
        note_slot(slots, tile, i, *cell);
    }
}

// Notes the slots of the cells of a cluster, if there is a tile for it.
fn note_cluster(slots: &mut Vec<Option<(TileAt, usize)>>, cluster: &Cluster, tile: Option<TileAt>)
    ensures { slots.new.items
        ≡ noted slots.old.items (option_map_or (cluster_slots cluster.now) tile []) }
{
    if let Some(tile) = tile {
        note_tile(slots, tile, cluster.cells.as_slice());
    }
}

// Notes the slots of the cells of clusters in these tiles.
fn note_clusters(slots: &mut Vec<Option<(TileAt, usize)>>, tiles: &[TileAt], clusters: &[Cluster])
    ensures { slots.new.items
        ≡ noted slots.old.items (sides cluster_slots tiles.now 0 clusters.now) }
{
    for (k, cluster) in clusters.iter().enumerate() {
        note_cluster(slots, cluster, tile_at(tiles, k));
    }
}

// Of so many cells none has a slot yet.
fn no_slots(alloc: Global, count: usize) -> Result<Vec<Option<(TileAt, usize)>>, NoMemory>
    ensures { IfOk result (λ slots. slots.items ≡ replicate count None) }
{
    Ok(vec![in alloc; None; count]?)
}

// The slot of each cell: of the slots that hold it the first.
#[tactic(auto, using(crate::proofs::Slotting::slots_are))]
pub(crate) fn slots_of(
    alloc: Global,
    placed: &Placed<'_>,
) -> Result<Vec<Option<(TileAt, usize)>>, NoMemory>
    ensures { IfOk result (λ slots. slots.items
        ≡ table (slot_of (plan_in placed.now)) (length placed.now.design.now.cells)) }
{
    let mut slots = no_slots(alloc, placed.design.cells().len())?;
    note_clusters(&mut slots, placed.tiles, placed.clusters);
    Ok(slots)
}
