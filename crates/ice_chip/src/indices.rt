//! The maps and lists by which a chip answers at once, in three groups.
ghost use Rattle.std.specs.Prelude.{◌≡◌, ◌<◌, All, IfOk, map};
ghost use Rattle.ice_chip.specs.Indices.{numbered};
ghost use Rattle.ice_chip.specs.Lookups.{placed_names, placed_wire};
ghost use Rattle.ice_chip.specs.NameIndex.{numbered_of, no_names};
ghost use Rattle.ice_chip.specs.IndexForms.{IsWireIndex, IsGlobalIndex, IsServerIndex, IsPlaceIndex};
ghost use Rattle.ice_chip.specs.Views.{parts_view};

use crate::index::{
    column_buffers, feeding_tiles, global_extras, global_pads, input_enables, tiles,
};
use crate::lists::names_by_wire;
use crate::name_places::{FunctionPlaces, places_of_packages};
use crate::names::NameIndex;
use crate::{ChipParts, Pad, PlacedName, Tile};
use ice_base::{NoMemory, TileAt, both};
use indexmap::IndexMap;
use std::alloc::Global;

/// The tiles, and the wires with their names.
#[derive(Drop)]
pub struct WireIndex {
    /// The tiles in the order of the text.
    pub tiles: Vec<Tile>,
    /// The names of each wire.
    pub lists: Vec<Vec<PlacedName>>,
    /// The wires by their names at places.
    pub names: NameIndex,
}

/// What serves each global.
#[derive(Drop)]
pub struct GlobalIndex {
    /// The tile whose `fabout` feeds each global.
    pub tiles: IndexMap<u8, TileAt>,
    /// The pad that can feed each global.
    pub pads: IndexMap<u8, Pad>,
    /// The extra bit that puts the level of its pad on each global.
    pub extras: IndexMap<u8, (u32, u32, u32)>,
}

/// What serves each global, pad and tile.
#[derive(Drop)]
pub struct ServerIndex {
    /// What serves each global.
    pub globals: GlobalIndex,
    /// The input enable of each pad.
    pub enables: IndexMap<Pad, Pad>,
    /// The tile that holds the column buffers of each tile.
    pub buffers: IndexMap<TileAt, TileAt>,
}

/// Where functions and packages stand.
#[derive(Drop)]
pub struct PlaceIndex {
    /// Where the first function of each kind and name stands.
    pub functions: FunctionPlaces,
    /// Where the first package of each name stands.
    pub packages: IndexMap<Vec<u8>, usize>,
}

impl WireIndex {
    /// The tiles and wires of these rows, with the index of their names.
    pub fn new(alloc: Global, parts: &ChipParts, names: NameIndex) -> Result<WireIndex, NoMemory>
        requires named { numbered_of names
            ≡ numbered no_names (map placed_wire (placed_names (parts_view parts.now))) }
        requires wires { All (λ n. n.wire < parts.now.wires) (parts_view parts.now).names }
        ensures { IfOk result (IsWireIndex (parts_view parts.now)) }
    {
        let (tiles, lists) = both(tiles(alloc, parts), names_by_wire(alloc, parts))?;
        Ok(WireIndex {
            tiles,
            lists,
            names,
        })
    }
}

impl GlobalIndex {
    /// What serves the globals of these rows.
    fn new(alloc: Global, parts: &ChipParts) -> Result<GlobalIndex, NoMemory>
        ensures { IfOk result (IsGlobalIndex (parts_view parts.now)) }
    {
        let fed = both(feeding_tiles(alloc, parts), global_pads(alloc, parts));
        let ((tiles, pads), extras) = both(fed, global_extras(alloc, parts))?;
        Ok(GlobalIndex {
            tiles,
            pads,
            extras,
        })
    }
}

impl ServerIndex {
    /// What serves the globals, pads and tiles of these rows.
    pub fn new(alloc: Global, parts: &ChipParts) -> Result<ServerIndex, NoMemory>
        ensures { IfOk result (IsServerIndex (parts_view parts.now)) }
    {
        let pads = both(GlobalIndex::new(alloc, parts), input_enables(alloc, parts));
        let ((globals, enables), buffers) = both(pads, column_buffers(alloc, parts))?;
        Ok(ServerIndex {
            globals,
            enables,
            buffers,
        })
    }
}

impl PlaceIndex {
    /// Where the functions and packages of these rows stand.
    pub fn new(alloc: Global, parts: &ChipParts) -> Result<PlaceIndex, NoMemory>
        ensures { IfOk result (IsPlaceIndex (parts_view parts.now)) }
    {
        let functions = FunctionPlaces::new(alloc, &parts.functions);
        let (functions, packages) = both(functions, places_of_packages(alloc, &parts.packages))?;
        Ok(PlaceIndex {
            functions,
            packages,
        })
    }
}
