//! The tiles of the sample chip, and the first wire of each place.
ghost use Rattle.std.specs.Prelude.{◌≡◌, ◌+◌, ◌*◌, ◌<◌, ◌≤◌, ◌^◌, ◌++◌, ℕ, All, map, IfOk, IfSome, OnOk};
ghost use Rattle.std.specs.List.{range_with_len};
ghost use Rattle.ice_sample.specs.Kinds.{is_end, kind_at, wires_of};
ghost use Rattle.ice_sample.specs.Tiles.{tile_list, tiles_of, wires_before, first_wire, wire_count};

use ice_base::{NoMemory, TileAt};
use std::alloc::Global;

/// The number of global wires, which come before the wires of all tiles.
pub const GLOBALS: u32 = 8;

/// The kinds of tiles of the sample chip.
#[derive(Clone, Copy)]
pub enum TileKind {
    /// A tile of two pads, at the border of the chip.
    Io,
    /// A tile of eight logic cells, inside the border.
    Logic,
}

/// A tile.
#[derive(Clone, Copy)]
pub struct Tile {
    /// Where it is.
    pub at: TileAt,
    /// Its kind.
    pub kind: TileKind,
}

// Whether a place is the first or the last of so many.
fn is_end(count: u16, place: u16) -> bool
    requires { place < count }
    ensures { result ≡ is_end count place }
{
    place == 0 || place + 1 == count
}

/// The kind of the tile at a place of a chip of this size, if there is one.
pub fn kind_at(width: u16, height: u16, at: TileAt) -> Option<TileKind>
    ensures kind { result ≡ kind_at width height at }
    ensures column { IfSome result (λ _. at.x < width) }
    ensures row { IfSome result (λ _. at.y < height) }
{
    if at.x >= width || at.y >= height {
        return None;
    }
    match (is_end(width, at.x), is_end(height, at.y)) {
        (true, true) => None,
        (true, false) | (false, true) => Some(TileKind::Io),
        (false, false) => Some(TileKind::Logic),
    }
}

// How many wires of its own a place has.
fn wires_of(kind: Option<TileKind>) -> u32
    ensures wires { result ≡ wires_of kind }
    ensures few { result ≤ 116 }
{
    match kind {
        None => 0,
        Some(TileKind::Io) => 71,
        Some(TileKind::Logic) => 116,
    }
}

/// The tiles of a chip of a size, and the first wire of each place.
#[derive(Drop)]
pub struct Grid {
    /// How many columns the chip has, from 4 to 64.
    pub width: u16,
    /// How many rows the chip has, from 4 to 64.
    pub height: u16,
    /// How many wires the chip has.
    pub wires: u32,
    /// The tiles in tile order.
    pub tiles: Vec<Tile>,
    // The wires before each place, by the numbers of places.
    first_wires: Vec<u32>,
    ghost narrow: { width ≤ 64 },
    ghost low: { height ≤ 64 },
    ghost counted: { wires ≡ wire_count width height },
    ghost tiled: { tiles.items ≡ tiles_of width height },
    ghost numbered: { first_wires.items
        ≡ map (wires_before width height) (range_with_len 0 (width * height)) },
}

// Puts the tile of a place behind the tiles, if it has a kind.
fn add_tile(tiles: &mut Vec<Tile>, at: TileAt, kind: Option<TileKind>) -> Result<(), NoMemory>
    ensures { OnOk result (tiles.new.items ≡ tiles.old.items ++ tile_list at kind) }
{
    if let Some(kind) = kind {
        tiles.push(Tile { at, kind })?;
    }
    Ok(())
}

impl Grid {
    /// The tiles of a chip of this size.
    #[tactic(auto, using(crate::proofs::Counting::tiles_none, crate::proofs::Counting::tiles_more, crate::proofs::Counting::map_range_more, crate::proofs::Counting::wires_none, crate::proofs::Counting::wires_more, crate::proofs::Counting::few_places))]
    pub fn new(alloc: Global, width: u16, height: u16) -> Result<Grid, NoMemory>
        requires width { (4 ≤ width) × (width ≤ 64) }
        requires height { (4 ≤ height) × (height ≤ 64) }
        ensures width { IfOk result (λ grid. grid.width ≡ width) }
        ensures height { IfOk result (λ grid. grid.height ≡ height) }
    {
        let mut tiles = Vec::new(alloc);
        let mut first_wires = Vec::new(alloc);
        let mut wires = GLOBALS;
        for place in 0..width * height {
            let at = TileAt {
                x: place % width,
                y: place / width,
            };
            let kind = kind_at(width, height, at);
            first_wires.push(wires)?;
            add_tile(&mut tiles, at, kind)?;
            wires += wires_of(kind);
        }
        Ok(Grid {
            width,
            height,
            wires,
            tiles,
            first_wires,
        })
    }

    /// The first wire of the tile at a place.
    pub fn first_wire(&self, at: TileAt) -> u32
        requires column { at.x < self.now.width }
        requires row { at.y < self.now.height }
        ensures wire { result ≡ first_wire self.now.width self.now.height at }
        ensures few { result ≤ 500000 }
    {
        self.first_wires[usize::from(at.y) * usize::from(self.width) + usize::from(at.x)]
    }
}
