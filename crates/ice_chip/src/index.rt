//! The maps and lists by which a chip answers at once.
ghost use Rattle.std.specs.Prelude.{◌≡◌, [], map, filter, IfOk, OnOk, nat_eq};
ghost use Rattle.ice_chip.specs.Database.{same_tile};
ghost use Rattle.ice_chip.specs.Lookups.{global_tile, fed_pad, is_io, holds_buffers, buffer_counts, served_tile};
ghost use Rattle.ice_chip.specs.Listings.{tile_of};
ghost use Rattle.ice_chip.specs.Indices.{with_first, firsts, enables_of};
ghost use Rattle.ice_chip.specs.Views.{function_view, parts_view};
ghost use Rattle.ice_chip.specs.BufferKinds.{IsOfKinds};

use crate::{ChipParts, Function, Pad, Tile, TileKind, TileLine, has_column_buffers};
use ice_base::{NoMemory, TileAt};
use indexmap::IndexMap;
use std::alloc::Global;
use std::hash::Hash;

/// The number of a name, at a place.
#[derive(Clone, Copy, PartialEq, Eq, Hash)]
pub struct NumberedName {
    /// The place.
    pub tile: TileAt,
    /// The number of the name.
    pub number: usize,
}

/// Notes a value of a key that has none yet. Most keys have none, so the value is put in at once, and one that was there put back.
pub fn note_first<K: Hash + Eq + Copy + Drop, V: Drop>(
    map: &mut IndexMap<K, V>,
    key: K,
    value: V,
) -> Result<(), NoMemory>
    ensures { OnOk result (map.new.entries ≡ with_first K.eq map.old.entries (key, value)) }
{
    if let Some(first) = map.insert(key, value)? {
        map.insert(key, first)?;
    }
    Ok(())
}

/// The tiles of these rows.
pub fn tiles(alloc: Global, parts: &ChipParts) -> Result<Vec<Tile>, NoMemory>
    ensures { IfOk result (λ tiles. tiles.items ≡ map tile_of (parts_view parts.now).tiles) }
{
    let mut tiles = Vec::new(alloc);
    for (at, known) in &parts.tiles {
        tiles.push(Tile {
            at: *at,
            kind: known.kind,
        })?;
    }
    Ok(tiles)
}

/// The tile whose `fabout` feeds each global.
pub fn feeding_tiles(alloc: Global, parts: &ChipParts) -> Result<IndexMap<u8, TileAt>, NoMemory>
    ensures { IfOk result (λ tiles.
        tiles.entries ≡ firsts nat_eq [] (map global_tile (parts_view parts.now).gbufin)) }
{
    let mut tiles = IndexMap::new(alloc);
    for row in &parts.gbufin {
        note_first(&mut tiles, row.1, row.0)?;
    }
    Ok(tiles)
}

/// The pad that can feed each global.
pub fn global_pads(alloc: Global, parts: &ChipParts) -> Result<IndexMap<u8, Pad>, NoMemory>
    ensures { IfOk result (λ pads.
        pads.entries ≡ firsts nat_eq [] (map fed_pad (parts_view parts.now).gbufpin)) }
{
    let mut pads = IndexMap::new(alloc);
    for row in &parts.gbufpin {
        note_first(&mut pads, row.1, row.0)?;
    }
    Ok(pads)
}

/// The extra bit that puts the level of its pad on each global.
pub fn global_extras(
    alloc: Global,
    parts: &ChipParts,
) -> Result<IndexMap<u8, (u32, u32, u32)>, NoMemory>
    ensures { IfOk result (λ extras.
        extras.entries ≡ firsts nat_eq [] (parts_view parts.now).padin) }
{
    let mut extras = IndexMap::new(alloc);
    for row in &parts.padin {
        note_first(&mut extras, row.0, row.1)?;
    }
    Ok(extras)
}

// Whether an IO tile stands there.
fn is_io(tile: Option<TileLine>) -> bool
    ensures { result ≡ is_io tile }
{
    match tile {
        None => false,
        Some(known) => matches!(known.kind, TileKind::Io),
    }
}

/// The input enable of each pad.
pub fn input_enables(alloc: Global, parts: &ChipParts) -> Result<IndexMap<Pad, Pad>, NoMemory>
    ensures { IfOk result (λ enables. enables.entries ≡ enables_of (parts_view parts.now)) }
{
    let mut enables = IndexMap::new(alloc);
    for row in &parts.ieren {
        if is_io(parts.tile_at(row.1.tile)) {
            note_first(&mut enables, row.0, row.1)?;
        }
    }
    Ok(enables)
}

// The kinds of tiles that have the column buffers of all eight globals.
#[derive(Clone, Copy)]
struct BufferKinds {
    io: bool,
    logic: bool,
    ram_bottom: bool,
    ram_top: bool,
}

impl BufferKinds {
    // The kinds for these functions.
    fn new(functions: &[Function]) -> BufferKinds
        ensures { IsOfKinds (map function_view functions.now) result }
    {
        BufferKinds {
            io: has_column_buffers(TileKind::Io, functions),
            logic: has_column_buffers(TileKind::Logic, functions),
            ram_bottom: has_column_buffers(TileKind::RamBottom, functions),
            ram_top: has_column_buffers(TileKind::RamTop, functions),
        }
    }

    // Whether a tile with column buffers stands there.
    fn hold(self, functions: &[Function], tile: Option<TileLine>) -> bool
        requires { IsOfKinds (map function_view functions.now) self }
        ensures { result ≡ holds_buffers (map function_view functions.now) tile }
    {
        let _functions = functions;
        match tile {
            None => false,
            Some(known) => match known.kind {
                TileKind::Io => self.io,
                TileKind::Logic => self.logic,
                TileKind::RamBottom => self.ram_bottom,
                TileKind::RamTop => self.ram_top,
            },
        }
    }
}

/// The tile that holds the column buffers of each tile.
pub fn column_buffers(
    alloc: Global,
    parts: &ChipParts,
) -> Result<IndexMap<TileAt, TileAt>, NoMemory>
    ensures { IfOk result (λ buffers. buffers.entries ≡ firsts same_tile [] (map served_tile
        (filter (buffer_counts (parts_view parts.now).tiles (parts_view parts.now).functions)
        (parts_view parts.now).colbuf))) }
{
    let kinds = BufferKinds::new(&parts.functions);
    let mut buffers = IndexMap::new(alloc);
    for row in &parts.colbuf {
        if kinds.hold(&parts.functions, parts.tile_at(row.0)) {
            note_first(&mut buffers, row.1, row.0)?;
        }
    }
    Ok(buffers)
}
