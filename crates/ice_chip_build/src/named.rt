//! One name of two wires in a tile.
ghost use Rattle.std.specs.Prelude.{◌≡◌, ◌==◌, [], None, Some, if◌then◌else◌, IfOk};
ghost use Rattle.std.specs.Map.{lookup};
ghost use Rattle.ice_chip.specs.WholeFaults.{same_placed, with_placed, with_name, clash_or, name_of_two_wires};
ghost use Rattle.ice_chip_build.specs.PlacedTexts.{by_placed, placed_text};
ghost use Rattle.ice_chip.specs.Views.{name_view, parts_view};

use ice_base::{NoMemory, TileAt};
use ice_chip::{ChipParts, NameRow, TileLine, WireLine};
use indexmap::IndexMap;
use std::alloc::Global;

/// A name at a place, as it stands in a row.
#[derive(Clone, Copy, PartialEq, Eq, Hash)]
pub struct PlacedText<'a> {
    /// The place.
    pub tile: TileAt,
    /// The bytes of the name.
    pub text: &'a [u8],
}

// The lines of these two wires of one name, where they are two.
fn clash_of(known: WireLine, first: WireLine) -> Option<(u32, u32)>
    ensures { result ≡ (if first.wire == known.wire then None else Some (known.line, first.line)) }
{
    if first.wire == known.wire {
        None
    } else {
        Some((known.line, first.line))
    }
}

// Notes a name in a tile; or the lines of two wires with this name, the later one first. Hardly a name of the databases is
// met again, so it is put in at once, and the wire that had it put back.
fn note_placed<'a>(
    seen: &mut IndexMap<PlacedText<'a>, WireLine>,
    placed: PlacedText<'a>,
    known: WireLine,
) -> Result<Option<(u32, u32)>, NoMemory>
    ensures { IfOk result (λ lines.
        with_placed (by_placed seen.old.entries) (placed_text placed.entry) known
        (lookup (same_placed (placed_text placed.entry)) (by_placed seen.old.entries))
        ≡ clash_or lines (by_placed seen.new.entries)) }
{
    let met = seen.insert(placed, known)?;
    match met {
        None => Ok(None),
        Some(first) => {
            seen.insert(placed, first)?;
            Ok(clash_of(known, first))
        }
    }
}

// Notes a name at a place, where a tile stands there; or the lines of two wires with this name, the later one first.
fn note_name<'a>(
    tile: Option<TileLine>,
    seen: &mut IndexMap<PlacedText<'a>, WireLine>,
    row: &'a NameRow,
) -> Result<Option<(u32, u32)>, NoMemory>
    ensures { IfOk result (λ lines. with_name tile (by_placed seen.old.entries) (name_view row.now)
        ≡ clash_or lines (by_placed seen.new.entries)) }
{
    if tile.is_none() {
        return Ok(None);
    }
    note_placed(
        seen,
        PlacedText {
            tile: row.tile,
            text: row.name.as_bytes(),
        },
        WireLine {
            wire: row.wire.0,
            line: row.line,
        },
    )
}

// The lines of a name in a tile that another wire has on an earlier line, also on one that was seen before.
fn name_again<'a>(
    parts: &'a ChipParts,
    seen: &mut IndexMap<PlacedText<'a>, WireLine>,
) -> Result<Option<(u32, u32)>, NoMemory>
    ensures { IfOk result (λ lines. lines ≡ name_of_two_wires (parts_view parts.now).tiles
        (by_placed seen.old.entries) (parts_view parts.now).names) }
{
    for name in &parts.names {
        let lines = note_name(parts.tile_at(name.tile), seen, name)?;
        if lines.is_some() {
            return Ok(lines);
        }
    }
    Ok(None)
}

/// The first line that gives a name in a tile to another wire than an earlier line does, and the first such
/// earlier line. It fails for want of memory alone.
pub fn name_of_two_wires(alloc: Global, parts: &ChipParts) -> Result<Option<(u32, u32)>, NoMemory>
    ensures { IfOk result (λ lines.
        lines ≡ name_of_two_wires (parts_view parts.now).tiles [] (parts_view parts.now).names) }
{
    let mut seen = IndexMap::with_capacity(alloc, parts.names.len())?;
    name_again(parts, &mut seen)
}
