//! The pads of the chip, and the places of its IO tiles and of its logic tiles.
ghost use Rattle.std.specs.Prelude.{◌≡◌, ◌++◌, IfOk, OnOk};
ghost use Rattle.ice_sample.specs.Sections.{if_io, if_logic, io_places, logic_places, pads_at};

use crate::grid::{Tile, TileKind};
use ice_base::{NoMemory, TileAt};
use std::alloc::Global;

/// A pad of an IO tile.
#[derive(Clone, Copy)]
pub struct Pad {
    /// Where the tile is.
    pub at: TileAt,
    /// Which of the tile's pads it is, 0 or 1.
    pub pio: u8,
}

// Puts the place of an IO tile behind the places.
fn add_io(places: &mut Vec<TileAt>, tile: Tile) -> Result<(), NoMemory>
    ensures { OnOk result (places.new.items ≡ places.old.items ++ if_io tile.kind tile.at) }
{
    match tile.kind {
        TileKind::Io => places.push(tile.at)?,
        TileKind::Logic => {}
    }
    Ok(())
}

// Puts the place of a logic tile behind the places.
fn add_logic(places: &mut Vec<TileAt>, tile: Tile) -> Result<(), NoMemory>
    ensures { OnOk result (places.new.items ≡ places.old.items ++ if_logic tile.kind tile.at) }
{
    match tile.kind {
        TileKind::Io => {}
        TileKind::Logic => places.push(tile.at)?,
    }
    Ok(())
}

/// The places of the IO tiles among tiles.
pub fn io_places(alloc: Global, tiles: &[Tile]) -> Result<Vec<TileAt>, NoMemory>
    ensures { IfOk result (λ places. places.items ≡ io_places tiles.now) }
{
    let mut places = Vec::new(alloc);
    for tile in tiles {
        add_io(&mut places, *tile)?;
    }
    Ok(places)
}

/// The places of the logic tiles among tiles.
pub fn logic_places(alloc: Global, tiles: &[Tile]) -> Result<Vec<TileAt>, NoMemory>
    ensures { IfOk result (λ places. places.items ≡ logic_places tiles.now) }
{
    let mut places = Vec::new(alloc);
    for tile in tiles {
        add_logic(&mut places, *tile)?;
    }
    Ok(places)
}

/// The pads of IO tiles.
pub fn pads_at(alloc: Global, places: &[TileAt]) -> Result<Vec<Pad>, NoMemory>
    ensures { IfOk result (λ pads. pads.items ≡ pads_at places.now) }
{
    let mut pads = Vec::new(alloc);
    for at in places {
        pads.push(Pad { at: *at, pio: 0 })?;
        pads.push(Pad { at: *at, pio: 1 })?;
    }
    Ok(pads)
}
