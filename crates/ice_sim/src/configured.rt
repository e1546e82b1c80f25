//! Configured chips, as they are compiled.
ghost use Rattle.std.specs.Prelude.{◌≡◌, ◌<◌, ◌^◌, [], IfOk, IfSome, OnOk};
ghost use Rattle.ice_chip.specs.Database.{same_tile, same_pad};
ghost use Rattle.ice_bits.specs.Configuration.{bits_of};
ghost use Rattle.ice_decode.specs.Drivers.{driver};
ghost use Rattle.ice_decode.specs.Refusals.{IsCircuitOf};
ghost use Rattle.ice_decode.specs.Cells.{logic_tiles, tile_place};
ghost use Rattle.ice_decode.specs.Direct.{takes_pad};
ghost use Rattle.ice_decode.specs.Pads.{io_tiles, register_place};
ghost use Rattle.ice_decode.specs.Tables.{ComesFrom};
ghost use Rattle.ice_sim.specs.ChipSlots.{pad_place, cell_place, number, slot_in, pin_slot, pad_register};
ghost use Rattle.ice_sim.specs.ConfiguredChips.{AreStoresOf, with_place, with_places};

use crate::stores::{Stores, io_tiles, small};
use ice_base::{NoMemory, TileAt, WireNo};
use ice_bits::Bits;
use ice_chip::{Chip, Pad};
use ice_decode::{Circuit, Driver, Point, at_pin, logic_tiles};
use ice_sim_sweep::Feed;
use indexmap::IndexMap;
use std::alloc::Global;
use std::marker::Model;

/// A configured chip, seen at pads, which have levels too. Contracts see the chip, its bits and those pads.
#[derive(Drop)]
pub struct ConfiguredChip<'a> {
    chip: &'a Chip,
    circuit: &'a Circuit,
    pads: &'a [Pad],
    // The first place of each pad among them.
    pad_places: IndexMap<Pad, u32>,
    // The number of the wires.
    wires: u32,
    // The place of each logic tile among them.
    logic_places: IndexMap<TileAt, u32>,
    // The place of each IO tile among them.
    io_places: IndexMap<TileAt, u32>,
    // The number of the logic cells.
    cells: u32,
    // The number of the stores.
    stores: u32,
}

impl<'a> Model for ConfiguredChip<'a> {
    ghost use Rattle.ice_sim.specs.ConfiguredChips.{ConfiguredData, configured_view, IsConfiguredChip};

    ghost Value = { ConfiguredData };

    ghost view = { configured_view };

    ghost invariant = { IsConfiguredChip };
}

// Notes the place of a tile that has none yet.
fn note_place(places: &mut IndexMap<TileAt, u32>, tile: TileAt, place: u32) -> Result<(), NoMemory>
    ensures { OnOk result
        (places.new.entries ≡ with_place same_tile tile place places.old.entries) }
{
    if places.get(&tile).is_none() {
        places.insert(tile, place)?;
    }
    Ok(())
}

// The place of each of these tiles among them.
fn tile_places(alloc: Global, tiles: &[TileAt]) -> Result<IndexMap<TileAt, u32>, NoMemory>
    ensures { IfOk result (λ places. places.entries ≡ with_places same_tile 0 tiles.now []) }
{
    let mut places = IndexMap::new(alloc);
    for (k, tile) in tiles.iter().enumerate() {
        note_place(&mut places, *tile, small(k)?)?;
    }
    Ok(places)
}

// Notes the place of a pad that has none yet.
fn note_pad(places: &mut IndexMap<Pad, u32>, pad: Pad, place: u32) -> Result<(), NoMemory>
    ensures { OnOk result (places.new.entries ≡ with_place same_pad pad place places.old.entries) }
{
    if places.get(&pad).is_none() {
        places.insert(pad, place)?;
    }
    Ok(())
}

// The first place of each of these pads among them.
fn pad_places(alloc: Global, pads: &[Pad]) -> Result<IndexMap<Pad, u32>, NoMemory>
    ensures { IfOk result (λ places. places.entries ≡ with_places same_pad 0 pads.now []) }
{
    let mut places = IndexMap::new(alloc);
    for (k, pad) in pads.iter().enumerate() {
        note_pad(&mut places, *pad, small(k)?)?;
    }
    Ok(places)
}

// The place of each logic tile among them.
fn logic_places(alloc: Global, chip: &Chip) -> Result<IndexMap<TileAt, u32>, NoMemory>
    ensures { IfOk result (λ places.
        places.entries ≡ with_places same_tile 0 (logic_tiles chip.now) []) }
{
    let tiles = logic_tiles(alloc, chip)?;
    let places = tile_places(alloc, &tiles)?;
    Ok(places)
}

// The place of each IO tile among them.
fn io_places(alloc: Global, chip: &Chip) -> Result<IndexMap<TileAt, u32>, NoMemory>
    ensures { IfOk result (λ places.
        places.entries ≡ with_places same_tile 0 (io_tiles chip.now) []) }
{
    let tiles = io_tiles(alloc, chip)?;
    let places = tile_places(alloc, &tiles)?;
    Ok(places)
}

impl<'a> ConfiguredChip<'a> {
    /// The chip of a circuit, of which is given what keeps levels. It fails for want of memory alone; more than 2^32 tiles, cells or
    /// stores count as that.
    pub(crate) fn new(
        alloc: Global,
        chip: &'a Chip,
        circuit: &'a Circuit,
        pads: &'a [Pad],
        stores: &Stores,
    ) -> Result<ConfiguredChip<'a>, NoMemory>
        requires circuit { IsCircuitOf chip.now circuit.now.configuration circuit.now }
        requires stores { AreStoresOf chip.now stores.now }
        ensures { IfOk result (λ configured. configured ≡ record {
          parts = chip.now;
          configuration = circuit.now.configuration;
          bonded = pads.now;
        }) }
    {
        let cells = small(stores.cells.len())?;
        let stores = stores.count()?;
        let logic_places = logic_places(alloc, chip)?;
        let io_places = io_places(alloc, chip)?;
        let pad_places = pad_places(alloc, pads)?;
        Ok(ConfiguredChip {
            chip,
            circuit,
            pads,
            pad_places,
            wires: chip.wires(),
            logic_places,
            io_places,
            cells,
            stores,
        })
    }

    /// The chip.
    pub(crate) fn chip(&self) -> &Chip
        ensures { result.now ≡ self.now.parts }
    {
        self.chip
    }

    /// The bits.
    pub(crate) fn bits(&self) -> &Bits
        ensures { result.now ≡ self.now.configuration }
    {
        self.circuit.bits()
    }

    /// The pads at which it is seen.
    pub(crate) fn pads(&self) -> &[Pad]
        ensures { result.now ≡ self.now.bonded }
    {
        self.pads
    }

    /// What drives a wire of the chip.
    #[tactic(auto, using(ice_decode::proofs::DriverTables::driver_within, ice_decode::proofs::DriverTables::driver_found, ice_decode::proofs::Switches::comes_from))]
    pub(crate) fn driver(&self, wire: WireNo) -> Driver
        requires { wire.0 < self.now.parts.wires }
        ensures driver { result ≡ driver self.now.parts (bits_of self.now.configuration) wire.0 }
        ensures source { ComesFrom self.now.parts.wires result }
    {
        self.circuit.drivers()[wire.0 as usize]
    }

    /// The place of a pad among those at which the chip is seen; None where it is none of them.
    #[tactic(auto, using(crate::proofs::TilePlaces::pad_found))]
    pub(crate) fn pad_place(&self, pad: Pad) -> Option<usize>
        ensures { result ≡ pad_place self.now.bonded pad }
    {
        self.pad_places.get(&pad).map(|place| *place as usize)
    }

    // The place of a tile among the logic tiles.
    #[tactic(auto, using(crate::proofs::TilePlaces::tile_found))]
    fn tile_place(&self, tile: TileAt) -> Option<u32>
        ensures { result ≡ tile_place tile (logic_tiles self.now.parts) }
    {
        self.logic_places.get(&tile).copied()
    }

    // The place of a tile among the IO tiles.
    #[tactic(auto, using(crate::proofs::TilePlaces::tile_found))]
    fn io_place(&self, tile: TileAt) -> Option<u32>
        ensures { result ≡ tile_place tile (io_tiles self.now.parts) }
    {
        self.io_places.get(&tile).copied()
    }

    /// The place of a cell among the logic cells; None where its tile is no logic tile.
    pub(crate) fn cell_place(&self, tile: TileAt, cell: u8) -> Option<usize>
        ensures place { result ≡ cell_place self.now.parts tile cell }
        ensures small { IfSome result (λ place. place < 2 ^ 36) }
    {
        match self.tile_place(tile) {
            Some(place) => Some(8 * place as usize + cell as usize),
            None => None,
        }
    }

    // The place of the first register of a pad among the stores; None where its tile is no IO tile.
    fn register_place(&self, pad: Pad) -> Option<usize>
        ensures place { result ≡ register_place self.now.parts pad }
        ensures small { IfSome result (λ place. place < 2 ^ 36) }
    {
        match self.io_place(pad.tile) {
            Some(place) => {
                Some(self.cells as usize + (4 * place as usize + 2 * pad.pio as usize))
            }
            None => None,
        }
    }

    /// What feeds a slot with what a register of a pad keeps: the one that takes what the pad gives, for 0, or the one that the pad is
    /// driven with, for 1.
    pub(crate) fn register_feed(&self, pad: Pad, which: u8) -> Feed
        ensures { result ≡ pad_register self.now.parts pad which }
    {
        let Some(first) = self.register_place(pad) else {
            return Feed::Nothing;
        };
        let place = first + which as usize;
        if place < self.stores as usize {
            Feed::Kept(place)
        } else {
            Feed::Nothing
        }
    }

    /// Whether a global has the level of a pad.
    pub(crate) fn takes_pad(&self, global: u8) -> bool
        ensures { result ≡ takes_pad self.now.parts self.now.configuration.extras global }
    {
        self.circuit.takes_pad(global)
    }

    /// The number of a point: wires have theirs, and behind them stand the carries of the logic cells.
    pub(crate) fn number(&self, point: Point) -> usize
        ensures { result ≡ number self.now.parts point }
    {
        match point {
            Point::Wire(wire) => wire.0 as usize,
            Point::Carry { tile, cell } => {
                self.wires as usize + self.cell_place(tile, cell).unwrap_or(0)
            }
        }
    }

    /// The slot of a point, where `slots` has those of all points by their numbers.
    pub(crate) fn slot_in(&self, slots: &[u32], point: Point) -> u32
        ensures { result ≡ slot_in self.now.parts slots.now point }
    {
        match slots.get(self.number(point)) {
            Some(slot) => *slot,
            None => 0,
        }
    }

    /// The slot of the wire of a name in a tile, or `bare` where none has it.
    pub(crate) fn pin_slot(&self, bare: u32, slots: &[u32], tile: TileAt, name: &[u8]) -> u32
        ensures { result ≡ pin_slot bare self.now.parts slots.now tile name.now }
    {
        match at_pin(self.chip, tile, name) {
            Some(point) => self.slot_in(slots, point),
            None => bare,
        }
    }
}
