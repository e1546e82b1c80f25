//! Wires that lead to two pins.
ghost use Rattle.std.specs.Prelude.{◌≡◌, IfOk, nat_eq};
ghost use Rattle.std.specs.Map.{lookup};
ghost use Rattle.ice_chip.specs.Database.{tile_known};
ghost use Rattle.ice_chip.specs.SharedPins.{is_pin, same_pin, with_pin, with_pin_name, shared_pin, shared_from};
ghost use Rattle.ice_chip.specs.WholeFaults.{clash_or};
ghost use Rattle.ice_chip.specs.Views.{name_view, parts_view};

use ice_base::NoMemory;
use ice_chip::{
    ChipParts, NameRow, PinLine, PlacedName, TileLine, WireText, is_global_name, is_input_name,
    is_output_name, tile_wire,
};
use indexmap::IndexMap;
use std::alloc::Global;

// Whether the name is one of a pin of the tile.
fn is_pin(tile: Option<TileLine>, name: &[u8]) -> bool
    ensures { result ≡ is_pin tile name.now }
{
    match tile {
        None => false,
        Some(tile) => is_input_name(tile.kind, name) || is_output_name(tile.kind, name),
    }
}

// Whether the name of a row is one of a pin of the tile at its place. Most names are those of no pin, whatever the tile.
fn is_pin_there(parts: &ChipParts, row: &NameRow) -> bool
    ensures { result ≡ is_pin (tile_known (parts_view parts.now).tiles row.now.tile) row.now.name }
{
    match tile_wire(row.name.as_bytes()) {
        None => false,
        Some(_) => is_pin(parts.tile_at(row.tile), row.name.as_bytes()),
    }
}

// Whether two names are of one pin.
fn same_pin(a: &PlacedName, b: &PlacedName) -> bool
    ensures { result ≡ same_pin a.now b.now }
{
    a.name.as_bytes() == b.name.as_bytes()
        && (a.tile == b.tile || is_global_name(a.name.as_bytes()))
}

// Notes a pin of a wire; or the lines of two pins of it, the later one first.
fn note_pin(
    seen: &mut IndexMap<u32, PinLine>,
    wire: u32,
    pin: PinLine,
) -> Result<Option<(u32, u32)>, NoMemory>
    ensures { IfOk result (λ lines. with_pin seen.old.entries
        (record { wire = wire; tile = pin.pin.tile; name = pin.pin.name; line = pin.line })
        (lookup (nat_eq wire) seen.old.entries)
        ≡ clash_or lines seen.new.entries) }
{
    if let Some(first) = seen.get(&wire) {
        if same_pin(&first.pin, &pin.pin) {
            return Ok(None);
        }
        return Ok(Some((pin.line, first.line)));
    }
    seen.insert(wire, pin)?;
    Ok(None)
}

// Notes a name of a wire, where it is one of a pin; or the lines of two pins of the wire, the later one first.
fn note_pin_name(
    alloc: Global,
    parts: &ChipParts,
    seen: &mut IndexMap<u32, PinLine>,
    row: &NameRow,
) -> Result<Option<(u32, u32)>, NoMemory>
    ensures { IfOk result (λ lines. with_pin_name
        (tile_known (parts_view parts.now).tiles row.now.tile) seen.old.entries (name_view row.now)
        ≡ clash_or lines seen.new.entries) }
{
    if !is_pin_there(parts, row) {
        return Ok(None);
    }
    let name = WireText::new(alloc, row.name.as_bytes())?;
    let pin = PlacedName {
        tile: row.tile,
        name,
    };
    note_pin(
        seen,
        row.wire.0,
        PinLine {
            pin,
            line: row.line,
        },
    )
}

// The lines of a wire that has another pin on an earlier line, also on one that was seen before.
fn pin_again(
    alloc: Global,
    parts: &ChipParts,
    seen: &mut IndexMap<u32, PinLine>,
) -> Result<Option<(u32, u32)>, NoMemory>
    ensures { IfOk result (λ lines. lines
        ≡ shared_from (parts_view parts.now).tiles seen.old.entries (parts_view parts.now).names) }
{
    for name in &parts.names {
        let lines = note_pin_name(alloc, parts, seen, name)?;
        if lines.is_some() {
            return Ok(lines);
        }
    }
    Ok(None)
}

/// The first line that gives a wire another input or output name than an earlier line does, and the first line
/// that gives it one. One global in several tiles is one name. It fails for want of memory alone.
pub fn shared_pin(alloc: Global, parts: &ChipParts) -> Result<Option<(u32, u32)>, NoMemory>
    ensures { IfOk result (λ lines. lines ≡ shared_pin (parts_view parts.now)) }
{
    let mut seen = IndexMap::new(alloc);
    pin_again(alloc, parts, &mut seen)
}
