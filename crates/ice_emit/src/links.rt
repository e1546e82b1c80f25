//! The rows that carry runs into last inputs and across tiles.
ghost use Rattle.std.specs.Prelude.{◌≡◌, ◌++◌, [], Some, option_map, slice_get, OnOk};
ghost use Rattle.std.specs.Option.{option_map_or, option_and_then};
ghost use Rattle.ice_base.specs.declared.number.WireNo.{WireNo};
ghost use Rattle.ice_chip.specs.Lookups.{wire_named};
ghost use Rattle.ice_chip.specs.Names.{input_name};
ghost use Rattle.ice_chip.specs.WireNames.{carry_out_name};
ghost use Rattle.ice_place_defs.specs.Loads.{slot_gives, slots_give};
ghost use Rattle.ice_emit_defs.specs.Links.{tree_switch, link_into, carry_source, cell_links, chunk_links, all_links};
ghost use Rattle.ice_emit.specs.Links.{number, cluster_link};
ghost use Rattle.ice_emit_settings.specs.Views.{switches};

use crate::routed::tile_at;
use crate::rows::push_row;
use ice_base::{NoMemory, RowNo, TileAt, WireNo};
use ice_bits_rows::{Index, first_sound};
use ice_cells::{Cluster, LogicCell};
use ice_chip::{Chip, carry_in_name, carry_out_name, first_carry_name, input_name};

// The first sound row from the one wire to the other, if there are both.
#[tactic(auto, using(crate::proofs::Listed::link_is, crate::proofs::Listed::no_source, crate::proofs::Listed::no_target))]
fn link(index: &Index<'_>, source: Option<WireNo>, target: Option<WireNo>) -> Option<RowNo>
    ensures { option_and_then (tree_switch index.now.chip.now) result ≡ option_and_then
        (link_into index.now.chip.now (option_map number source)) (option_map number target) }
{
    let source = source?;
    let target = target?;
    first_sound(index, source, target)
}

// The wire of the carry out of a cell; the name has the last digit of its number alone.
fn carry_wire(chip: &Chip, tile: TileAt, i: usize) -> Option<WireNo>
    ensures { option_map number result ≡ wire_named chip.now tile (carry_out_name i) }
{
    chip.wire_named(tile, &carry_out_name((i % 10) as u8))
}

// The wire of the carry that comes into a cell.
fn carry_source(chip: &Chip, tile: TileAt, i: usize) -> Option<WireNo>
    ensures { option_map number result ≡ carry_source chip.now tile i }
{
    if i == 0 {
        return chip.wire_named(tile, &first_carry_name());
    }
    carry_wire(chip, tile, i - 1)
}

// The wire of a cell's last input.
fn last_input(chip: &Chip, tile: TileAt, i: usize) -> Option<WireNo>
    ensures { option_map number result ≡ wire_named chip.now tile (input_name i 3) }
{
    chip.wire_named(tile, &input_name((i % 10) as u8, 3))
}

// Adds the row that takes the carry into the last input of a cell, if the cell does.
#[tactic(auto, using(crate::proofs::Listed::link_added))]
fn push_cell_link(
    rows: &mut Vec<RowNo>,
    index: &Index<'_>,
    tile: TileAt,
    i: usize,
    cell: &LogicCell,
) -> Result<(), NoMemory>
    ensures { OnOk result
        (switches index.now.chip.now rows.new.items ≡ switches index.now.chip.now rows.old.items
        ++ cell_links index.now.chip.now tile i cell.now) }
{
    if !cell.carry_to_in3 {
        return Ok(());
    }
    let row = link(
        index,
        carry_source(index.chip, tile, i),
        last_input(index.chip, tile, i),
    );
    push_row(rows, row)?;
    Ok(())
}

// The cell of a number.
fn cell_at(cells: &[LogicCell], c: u32) -> Option<LogicCell>
    ensures { result ≡ slice_get cells.now c }
{
    cells.get(c as usize).copied()
}

// Adds the row of the cell of a number.
fn push_numbered(
    rows: &mut Vec<RowNo>,
    index: &Index<'_>,
    cells: &[LogicCell],
    tile: TileAt,
    i: usize,
    c: u32,
) -> Result<(), NoMemory>
    ensures { OnOk result
        (switches index.now.chip.now rows.new.items ≡ switches index.now.chip.now rows.old.items
        ++ slot_gives (cell_links index.now.chip.now) cells.now tile i (Some c)) }
{
    match cell_at(cells, c) {
        None => Ok(()),
        Some(cell) => push_cell_link(rows, index, tile, i, &cell),
    }
}

// Adds the row of the cell of a slot.
fn push_slot(
    rows: &mut Vec<RowNo>,
    index: &Index<'_>,
    cells: &[LogicCell],
    tile: TileAt,
    i: usize,
    slot: Option<u32>,
) -> Result<(), NoMemory>
    ensures { OnOk result
        (switches index.now.chip.now rows.new.items ≡ switches index.now.chip.now rows.old.items
        ++ slot_gives (cell_links index.now.chip.now) cells.now tile i slot) }
{
    match slot {
        None => Ok(()),
        Some(c) => push_numbered(rows, index, cells, tile, i, c),
    }
}

// Adds the rows of the cells of a tile.
fn push_slots(
    rows: &mut Vec<RowNo>,
    index: &Index<'_>,
    cells: &[LogicCell],
    tile: TileAt,
    slots: &[Option<u32>],
) -> Result<(), NoMemory>
    ensures { OnOk result
        (switches index.now.chip.now rows.new.items ≡ switches index.now.chip.now rows.old.items
        ++ slots_give (cell_links index.now.chip.now) cells.now tile 0 slots.now) }
{
    for (i, slot) in slots.iter().enumerate() {
        push_slot(rows, index, cells, tile, i, *slot)?;
    }
    Ok(())
}

// Adds the row that takes the carry of the tile below into a tile, if it has a later chunk of a run.
fn push_entry(
    rows: &mut Vec<RowNo>,
    index: &Index<'_>,
    tile: TileAt,
    chunk: Option<(u32, u32)>,
) -> Result<(), NoMemory>
    ensures { OnOk result (switches index.now.chip.now rows.new.items
        ≡ switches index.now.chip.now rows.old.items ++ chunk_links index.now.chip.now tile chunk) }
{
    let Some((_, k)) = chunk else {
        return Ok(());
    };
    if k == 0 {
        return Ok(());
    }
    let row = link(
        index,
        index.chip.wire_named(tile, &carry_in_name()),
        index.chip.wire_named(tile, &first_carry_name()),
    );
    push_row(rows, row)?;
    Ok(())
}

// Adds the rows of a cluster.
fn push_cluster(
    rows: &mut Vec<RowNo>,
    index: &Index<'_>,
    cells: &[LogicCell],
    cluster: &Cluster,
    tile: TileAt,
) -> Result<(), NoMemory>
    ensures { OnOk result
        (switches index.now.chip.now rows.new.items ≡ switches index.now.chip.now rows.old.items
        ++ cluster_link index.now.chip.now cells.now cluster.now tile) }
{
    push_slots(rows, index, cells, tile, cluster.cells.as_slice())?;
    push_entry(rows, index, tile, cluster.run)?;
    Ok(())
}

// The same, if there is a tile for it.
fn push_cluster_at(
    rows: &mut Vec<RowNo>,
    index: &Index<'_>,
    cells: &[LogicCell],
    cluster: &Cluster,
    tile: Option<TileAt>,
) -> Result<(), NoMemory>
    ensures { OnOk result
        (switches index.now.chip.now rows.new.items ≡ switches index.now.chip.now rows.old.items
        ++ option_map_or (cluster_link index.now.chip.now cells.now cluster.now) tile []) }
{
    match tile {
        None => Ok(()),
        Some(tile) => push_cluster(rows, index, cells, cluster, tile),
    }
}

/// Adds the rows that carry runs into last inputs and across tiles, of clusters in these tiles.
pub fn push_links(
    rows: &mut Vec<RowNo>,
    index: &Index<'_>,
    cells: &[LogicCell],
    tiles: &[TileAt],
    clusters: &[Cluster],
) -> Result<(), NoMemory>
    ensures { OnOk result
        (switches index.now.chip.now rows.new.items ≡ switches index.now.chip.now rows.old.items
        ++ all_links index.now.chip.now cells.now tiles.now clusters.now) }
{
    for (k, cluster) in clusters.iter().enumerate() {
        push_cluster_at(rows, index, cells, cluster, tile_at(tiles, k))?;
    }
    Ok(())
}
