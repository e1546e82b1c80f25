//! The bits of tiles, found by the places of the tiles.
ghost use Rattle.std.specs.Prelude.{◌≡◌, Some, [], ◌∷◌, map, option_map, IfOk, OnOk};
ghost use Rattle.std.specs.Map.{lookup};
ghost use Rattle.std.specs.Option.{option_or};
ghost use Rattle.ice_chip.specs.Database.{same_tile};
ghost use Rattle.ice_bits.specs.Rewriting.{rows_with, tiles_with};
ghost use Rattle.ice_bits.specs.TilePlaces.{place_in};
ghost use Rattle.ice_bits.specs.TileForms.{blank_at};

use crate::TileBits;
use ice_base::{BitAt, NoMemory, TileAt};
use ice_chip::Tile;
use indexmap::IndexMap;
use std::alloc::Global;
use std::marker::Model;

/// The bits of tiles. Contracts see the tiles in order, each with its rows of bits.
#[derive(Drop)]
pub(crate) struct Grids {
    // The bits of each tile.
    tiles: Vec<(TileAt, TileBits)>,
    // Where the bits of each tile stand.
    places: IndexMap<TileAt, usize>,
}

impl Model for Grids {
    ghost use Rattle.std.specs.Prelude.{List, Bool};
    ghost use Rattle.ice_base.specs.declared.number.TileAt.{TileAt};
    ghost use Rattle.ice_bits.specs.GridPlaces.{IsIndexed};

    ghost Value = { List (TileAt × List (List Bool)) };

    ghost view = { λ grids. grids.tiles.items };

    ghost invariant = { IsIndexed };
}

// Notes the place of a tile that has none yet.
fn note_place(
    places: &mut IndexMap<TileAt, usize>,
    tile: TileAt,
    place: usize,
) -> Result<(), NoMemory>
    ensures { OnOk result ((t : TileAt) → lookup (same_tile t) places.new.entries ≡ option_or
        (lookup (same_tile t) places.old.entries) (lookup (same_tile t) ((tile, place) ∷ []))) }
{
    if places.get(&tile).is_none() {
        places.insert(tile, place)?;
    }
    Ok(())
}

// Notes the places of tiles, of which none has one yet.
fn note_places(
    places: &mut IndexMap<TileAt, usize>,
    tiles: &[(TileAt, TileBits)],
) -> Result<(), NoMemory>
    requires { places.old.entries ≡ [] }
    ensures { OnOk result
        ((t : TileAt) → lookup (same_tile t) places.new.entries ≡ place_in t tiles.now) }
{
    for (place, held) in tiles.iter().enumerate() {
        note_place(places, held.0, place)?;
    }
    Ok(())
}

// The place of each of these tiles.
fn places_of(
    alloc: Global,
    tiles: &[(TileAt, TileBits)],
) -> Result<IndexMap<TileAt, usize>, NoMemory>
    ensures { IfOk result (λ places.
        (t : TileAt) → lookup (same_tile t) places.entries ≡ place_in t tiles.now) }
{
    let mut places = IndexMap::with_capacity(alloc, tiles.len())?;
    note_places(&mut places, tiles).and(Ok(places))
}

// The bits of these tiles, all 0.
fn blank_tiles(alloc: Global, all: &[Tile]) -> Result<Vec<(TileAt, TileBits)>, NoMemory>
    ensures { IfOk result (λ tiles. tiles.items ≡ map blank_at all.now) }
{
    let mut tiles = Vec::with_capacity(alloc, all.len())?;
    for tile in all {
        let rows = TileBits::blank(alloc, tile.kind.columns())?;
        tiles.push((tile.at, rows))?;
    }
    Ok(tiles)
}

// Equal copies of the bits of tiles.
fn copies_of(alloc: Global, all: &[(TileAt, TileBits)]) -> Result<Vec<(TileAt, TileBits)>, NoMemory>
    ensures { IfOk result (λ tiles. tiles.items ≡ all.now) }
{
    let mut tiles = Vec::with_capacity(alloc, all.len())?;
    for held in all {
        let rows = held.1.copy(alloc)?;
        tiles.push((held.0, rows))?;
    }
    Ok(tiles)
}

impl Grids {
    // The bits of tiles, found by their places.
    fn of_tiles(alloc: Global, tiles: Vec<(TileAt, TileBits)>) -> Result<Grids, NoMemory>
        ensures { IfOk result (λ grids. grids ≡ tiles.items) }
    {
        let places = places_of(alloc, &tiles)?;
        Ok(Grids { tiles, places })
    }

    /// The bits of these tiles, all 0.
    pub(crate) fn blank(alloc: Global, all: &[Tile]) -> Result<Grids, NoMemory>
        ensures { IfOk result (λ grids. grids ≡ map blank_at all.now) }
    {
        let tiles = blank_tiles(alloc, all)?;
        Grids::of_tiles(alloc, tiles)
    }

    /// An equal copy.
    pub(crate) fn copy(&self, alloc: Global) -> Result<Grids, NoMemory>
        ensures { IfOk result (λ copy. copy ≡ self.now) }
    {
        let tiles = copies_of(alloc, &self.tiles)?;
        Grids::of_tiles(alloc, tiles)
    }

    /// Where the bits of a tile stand among those of all tiles.
    pub(crate) fn place(&self, tile: TileAt) -> Option<usize>
        ensures { result ≡ place_in tile self.now }
    {
        self.places.get(&tile).copied()
    }

    /// The bits of a tile.
    pub(crate) fn tile(&self, tile: TileAt) -> Option<&TileBits>
        ensures { option_map (λ rows. rows.now) result ≡ lookup (same_tile tile) self.now }
    {
        match self.place(tile) {
            None => None,
            Some(place) => Some(&self.tiles[place].1),
        }
    }

    /// Writes a bit of the tile at a place among all tiles, where the tile has such a bit.
    pub(crate) fn write(&mut self, tile: TileAt, place: usize, bit: BitAt, value: bool)
        requires { place_in tile self.old ≡ Some place }
        ensures written { self.new ≡ tiles_with tile (rows_with bit value) self.old }
        ensures place { place_in tile self.new ≡ Some place }
    {
        let held = &mut self.tiles[place];
        held.1.write(bit, value);
    }

    /// Puts other rows in place of those of a tile, where it is there.
    pub(crate) fn put(&mut self, tile: TileAt, rows: TileBits)
        ensures { self.new ≡ tiles_with tile (λ _. rows) self.old }
    {
        if let Some(place) = self.place(tile) {
            self.tiles[place].1 = rows;
        }
    }
}
