//! What keeps levels in a chip from step to step.
ghost use Rattle.std.specs.Prelude.{◌≡◌, ◌+◌, ◌*◌, ◌++◌, length, IfOk, OnOk};
ghost use Rattle.std.specs.List.{flat_map};
ghost use Rattle.ice_decode.specs.Cells.{cells, cells_in};
ghost use Rattle.ice_decode.specs.Pads.{io_tiles, pads, pads_in};
ghost use Rattle.ice_sim.specs.ConfiguredChips.{AreStoresOf};

use ice_base::{NoMemory, TileAt};
use ice_chip::{Chip, Pad, TileKind};
use ice_decode::logic_tiles;
use std::alloc::Global;

/// The logic cells of a chip, each with a flip-flop, and its pads, each with two registers.
#[derive(Drop)]
pub struct Stores {
    /// The logic cells, tile by tile.
    pub cells: Vec<(TileAt, u8)>,
    /// The pads, tile by tile.
    pub pads: Vec<Pad>,
}

/// A number as a slot or a place; more than 2^32 places count as want of memory.
pub(crate) fn small(number: usize) -> Result<u32, NoMemory>
    ensures { IfOk result (λ small. small ≡ number) }
{
    match u32::try_from(number) {
        Ok(small) => Ok(small),
        Err(_) => Err(NoMemory),
    }
}

impl Stores {
    /// How many stores there are. It fails for want of memory alone; more than 2^32 cells, pads or stores count as that.
    pub(crate) fn count(&self) -> Result<u32, NoMemory>
        ensures { IfOk result (λ count.
            count ≡ length self.now.cells.items + 2 * length self.now.pads.items) }
    {
        let cells = small(self.cells.len())?;
        let pads = small(self.pads.len())?;
        small(cells as usize + 2 * pads as usize)
    }
}

// Adds the cells of a tile.
fn add_cells(cells: &mut Vec<(TileAt, u8)>, tile: TileAt) -> Result<(), NoMemory>
    ensures { OnOk result (cells.new.items ≡ cells.old.items ++ cells_in tile) }
{
    cells.extend_from_slice(&[
        (tile, 0),
        (tile, 1),
        (tile, 2),
        (tile, 3),
        (tile, 4),
        (tile, 5),
        (tile, 6),
        (tile, 7),
    ])?;
    Ok(())
}

// The cells of these tiles, tile by tile.
fn cells_of(alloc: Global, tiles: &[TileAt]) -> Result<Vec<(TileAt, u8)>, NoMemory>
    ensures { IfOk result (λ cells. cells.items ≡ flat_map cells_in tiles.now) }
{
    let mut cells = Vec::new(alloc);
    for tile in tiles {
        add_cells(&mut cells, *tile)?;
    }
    Ok(cells)
}

// The logic cells of a chip.
fn chip_cells(alloc: Global, chip: &Chip) -> Result<Vec<(TileAt, u8)>, NoMemory>
    ensures { IfOk result (λ all. all.items ≡ cells chip.now) }
{
    let tiles = logic_tiles(alloc, chip)?;
    let cells = cells_of(alloc, &tiles)?;
    Ok(cells)
}

/// The places of the IO tiles of a chip, in the order of the database.
pub(crate) fn io_tiles(alloc: Global, chip: &Chip) -> Result<Vec<TileAt>, NoMemory>
    ensures { IfOk result (λ tiles. tiles.items ≡ io_tiles chip.now) }
{
    let mut tiles = Vec::new(alloc);
    for tile in chip.tiles() {
        if let TileKind::Io = tile.kind {
            tiles.push(tile.at)?;
        }
    }
    Ok(tiles)
}

// Adds the pads of a tile.
fn add_pads(pads: &mut Vec<Pad>, tile: TileAt) -> Result<(), NoMemory>
    ensures { OnOk result (pads.new.items ≡ pads.old.items ++ pads_in tile) }
{
    pads.extend_from_slice(&[Pad { tile, pio: 0 }, Pad { tile, pio: 1 }])?;
    Ok(())
}

// The pads of these tiles, tile by tile.
fn pads_of(alloc: Global, tiles: &[TileAt]) -> Result<Vec<Pad>, NoMemory>
    ensures { IfOk result (λ pads. pads.items ≡ flat_map pads_in tiles.now) }
{
    let mut pads = Vec::new(alloc);
    for tile in tiles {
        add_pads(&mut pads, *tile)?;
    }
    Ok(pads)
}

// The pads of a chip.
fn chip_pads(alloc: Global, chip: &Chip) -> Result<Vec<Pad>, NoMemory>
    ensures { IfOk result (λ all. all.items ≡ pads chip.now) }
{
    let tiles = io_tiles(alloc, chip)?;
    let pads = pads_of(alloc, &tiles)?;
    Ok(pads)
}

/// What keeps levels in a chip.
pub(crate) fn chip_stores(alloc: Global, chip: &Chip) -> Result<Stores, NoMemory>
    ensures { IfOk result (AreStoresOf chip.now) }
{
    let cells = chip_cells(alloc, chip)?;
    let pads = chip_pads(alloc, chip)?;
    Ok(Stores { cells, pads })
}
