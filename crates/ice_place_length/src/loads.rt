//! The loads of a placed design, in the box of a root's net.
ghost use Rattle.std.specs.Prelude.{◌≡◌, ℕ, Some};
ghost use Rattle.ice_place_defs.specs.Loads.{pad_loads, pads_loads, global_loads, fed_roots, globals_loads, cell_loads, control_loads, slot_gives, slots_give, clusters_give};
ghost use Rattle.ice_place_length.specs.Grown.{box_in, grown, loads_in};

use crate::boxes::{Span, grown_at};
use ice_base::TileAt;
use ice_cells::{Cluster, Control, DesignPad, LogicCell, Root};
use ice_chip::{Chip, Pad};
use ice_place_defs::{Placed, fed_root};

// The box with a pad that the root drives or enables.
fn with_pad(span: Span, root: Root, place: Pad, pad: &DesignPad) -> Span
    ensures { box_in result ≡ grown root (box_in span) (pad_loads place pad.now) }
{
    let span = grown_at(span, root, place.tile, pad.drive);
    grown_at(span, root, place.tile, pad.enable)
}

// The same of all pads.
fn with_pads(span: Span, root: Root, places: &[Pad], pads: &[DesignPad]) -> Span
    ensures { box_in result ≡ grown root (box_in span) (pads_loads places.now pads.now) }
{
    let mut wide = span;
    for k in 0..places.len().min(pads.len()) {
        wide = with_pad(wide, root, places[k], &pads[k]);
    }
    wide
}

// The box with what feeds a global, where that reads the root.
fn with_global(span: Span, root: Root, chip: &Chip, number: u8, reads: Option<Root>) -> Span
    ensures { box_in result ≡ grown root (box_in span) (global_loads chip.now number reads) }
{
    match chip.global_of(number) {
        None => span,
        Some(tile) => grown_at(span, root, tile, reads),
    }
}

// The same of all global buffers; a direct one reads in no tile.
fn with_globals(
    span: Span,
    root: Root,
    chip: &Chip,
    numbers: &[u8],
    direct: &[bool],
    reads: &[Option<Root>],
) -> Span
    ensures { box_in result ≡ grown root (box_in span)
        (globals_loads chip.now numbers.now (fed_roots direct.now reads.now)) }
{
    let mut wide = span;
    for k in 0..numbers.len().min(reads.len()) {
        let read = fed_root(direct, k, reads[k]);
        wide = with_global(wide, root, chip, numbers[k], read);
    }
    wide
}

// The box with a cell that reads the root.
fn with_cell(span: Span, root: Root, tile: TileAt, cell: &LogicCell) -> Span
    ensures { (i : ℕ) → box_in result ≡ grown root (box_in span) (cell_loads tile i cell.now) }
{
    let span = grown_at(span, root, tile, cell.ins[0]);
    let span = grown_at(span, root, tile, cell.ins[1]);
    let span = grown_at(span, root, tile, cell.ins[2]);
    grown_at(span, root, tile, cell.ins[3])
}

// The box with the cell of a number.
fn with_numbered(span: Span, root: Root, tile: TileAt, cells: &[LogicCell], c: u32) -> Span
    ensures { (i : ℕ)
        → box_in result
        ≡ grown root (box_in span) (slot_gives cell_loads cells.now tile i (Some c)) }
{
    match cells.get(c as usize) {
        None => span,
        Some(cell) => with_cell(span, root, tile, cell),
    }
}

// The box with the cell of a slot.
fn with_slot(span: Span, root: Root, tile: TileAt, cells: &[LogicCell], slot: Option<u32>) -> Span
    ensures { (i : ℕ)
        → box_in result ≡ grown root (box_in span) (slot_gives cell_loads cells.now tile i slot) }
{
    match slot {
        None => span,
        Some(c) => with_numbered(span, root, tile, cells, c),
    }
}

// The box with the cells of a tile.
fn with_slots(
    span: Span,
    root: Root,
    tile: TileAt,
    cells: &[LogicCell],
    slots: &[Option<u32>],
) -> Span
    ensures { box_in result
        ≡ grown root (box_in span) (slots_give cell_loads cells.now tile 0 slots.now) }
{
    let mut wide = span;
    for i in 0..slots.len() {
        wide = with_slot(wide, root, tile, cells, slots[i]);
    }
    wide
}

// The box with a control set of which the root is a part.
fn with_control(span: Span, root: Root, tile: TileAt, control: Option<Control>) -> Span
    ensures { box_in result ≡ grown root (box_in span) (control_loads tile control) }
{
    match control {
        None => span,
        Some(control) => {
            let span = grown_at(span, root, tile, control.clock);
            let span = grown_at(span, root, tile, control.enable);
            grown_at(span, root, tile, control.reset)
        }
    }
}

// The box with all clusters.
fn with_clusters(
    span: Span,
    root: Root,
    cells: &[LogicCell],
    tiles: &[TileAt],
    clusters: &[Cluster],
) -> Span
    ensures { box_in result ≡ grown root (box_in span)
        (clusters_give cell_loads control_loads cells.now tiles.now clusters.now) }
{
    let mut wide = span;
    for k in 0..tiles.len().min(clusters.len()) {
        let inner = with_slots(wide, root, tiles[k], cells, clusters[k].cells.as_slice());
        wide = with_control(inner, root, tiles[k], clusters[k].control);
    }
    wide
}

/// The box with the tiles of all loads of the root.
pub fn with_loads(span: Span, root: Root, placed: &Placed<'_>) -> Span
    ensures { box_in result ≡ grown root (box_in span) (loads_in placed.now) }
{
    let span = with_pads(span, root, placed.ports, placed.design.pads());
    let span = with_globals(
        span,
        root,
        placed.chip,
        placed.globals,
        placed.direct,
        placed.design.globals(),
    );
    with_clusters(
        span,
        root,
        placed.design.cells(),
        placed.tiles,
        placed.clusters,
    )
}
