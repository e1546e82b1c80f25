//! Configured chips in a package, as their netlists are made.
ghost use Rattle.std.specs.Prelude.{◌≡◌, ◌<◌, ◌≤◌, ◌^◌, ◌+◌, ◌*◌, length, false, Some, IsSome, IfOk};
ghost use Rattle.ice_base_values.specs.Order.{Has};
ghost use Rattle.ice_chip.specs.Views.{package_view};
ghost use Rattle.ice_bits.specs.Configuration.{bits_of};
ghost use Rattle.ice_decode.specs.Cells.{logic_tiles, tile_place};
ghost use Rattle.ice_decode.specs.Refusals.{IsCircuitOf};
ghost use Rattle.ice_decode.specs.declared.point.Point.TheVariants.{Wire, Carry};
ghost use Rattle.ice_back_laws.specs.Back.{reader, pin_reader};
ghost use Rattle.ice_back_laws.specs.Numbers.{signal, cell_number, root_number, reader_of};
ghost use Rattle.ice_back_laws.specs.Roots.{StandsAt, IsNumbered, is_registered, feeds_global, root_of};
ghost use Rattle.ice_back_points.specs.ConfiguredChips.{IsConfigured};

use crate::feeding::feeds_global;
use crate::filling::all_roots;
use crate::heard::is_heard;
use crate::roots::{carry_root, root_at};
use ice_back_laws::LevelRoot;
use ice_base::{NoMemory, SignalNo, TileAt, WireNo};
use ice_bits::Bits;
use ice_chip::{Chip, Package, Pad};
use ice_chip_laws::lookups_are_lawful;
use ice_decode::{Circuit, has_input_register, logic_tiles};
use indexmap::IndexSet;
use std::alloc::Global;
use std::marker::Model;

// The tiles of a chip: up to this number, in 256 columns and rows.
const MOST_TILES: usize = 65_536;

// The pads of a package: up to this number, two at each tile.
const MOST_PADS: usize = 131_072;

/// A configured chip in a package. Contracts see the chip, its bits and the rows of the package. No reader takes memory.
#[derive(Drop)]
pub struct ConfiguredChip<'a> {
    chip: &'a Chip,
    circuit: &'a Circuit,
    package: &'a Package,
    // The logic tiles.
    tiles: IndexSet<TileAt>,
    // The root of each wire.
    roots: Vec<LevelRoot>,
}

impl<'a> Model for ConfiguredChip<'a> {
    ghost use Rattle.ice_back_points.specs.ConfiguredChips.{ConfiguredData, configured_view, IsConfiguredChip};

    ghost Value = { ConfiguredData };

    ghost view = { configured_view };

    ghost invariant = { IsConfiguredChip };
}

// The logic tiles, each of which stands once.
fn tile_set(alloc: Global, chip: &Chip, tiles: &[TileAt]) -> Result<IndexSet<TileAt>, NoMemory>
    requires { tiles.now ≡ logic_tiles chip.now }
    ensures { IfOk result (λ set. set.keys ≡ logic_tiles chip.now) }
{
    chip.is_chip();
    let mut set = IndexSet::new(alloc);
    for tile in tiles {
        set.insert(*tile)?;
    }
    Ok(set)
}

// The signal of the table of the cell of a tile at a place, behind those of so many pads.
fn cell_signal(pads: usize, place: usize, cell: u8) -> u32
    requires pads { pads ≤ MOST_PADS }
    requires place { place < MOST_TILES }
    ensures number { result ≡ 2 + 5 * pads + 3 * (8 * place + cell) }
    ensures small { result < 2 ^ 30 }
{
    2 + 5 * pads as u32 + 3 * (8 * place as u32 + u32::from(cell))
}

impl<'a> ConfiguredChip<'a> {
    /// The configured chip in a package of it. The root of each wire is found here.
    ///
    /// # Errors
    /// Want of memory alone.
    pub fn new(
        alloc: Global,
        chip: &'a Chip,
        circuit: &'a Circuit,
        package: &'a Package,
    ) -> Result<ConfiguredChip<'a>, NoMemory>
        requires circuit { IsCircuitOf chip.now circuit.now.configuration circuit.now }
        requires listed { Has chip.now.packages (package_view «package».now) }
        ensures { IfOk result (λ configured. configured ≡ record {
          parts = chip.now;
          configuration = circuit.now.configuration;
          bonded = package_view «package».now;
        }) }
    {
        lookups_are_lawful();
        chip.is_chip();
        let logic = logic_tiles(alloc, chip)?;
        let tiles = tile_set(alloc, chip, &logic)?;
        let roots = all_roots(alloc, chip, circuit, &package.pads)?;
        Ok(ConfiguredChip {
            chip,
            circuit,
            package,
            tiles,
            roots,
        })
    }

    /// The chip.
    pub fn chip(&self) -> &Chip
        ensures { result.now ≡ self.now.parts }
    {
        self.chip
    }

    /// The bits.
    pub fn bits(&self) -> &Bits
        ensures { result.now ≡ self.now.configuration }
    {
        self.circuit.bits()
    }

    /// The package.
    pub fn package(&self) -> &Package
        ensures { package_view result.now ≡ self.now.bonded }
    {
        self.package
    }

    /// The pads of the package.
    pub fn pads(&self) -> &[Pad]
        ensures pads { result.now ≡ self.now.bonded.pads }
        ensures configured { IsConfigured self.now }
    {
        self.package.pads.as_slice()
    }

    /// The logic tiles.
    pub fn tiles(&self) -> &[TileAt]
        ensures tiles { result.now ≡ logic_tiles self.now.parts }
        ensures configured { IsConfigured self.now }
    {
        self.tiles.as_slice()
    }

    // The place of a logic tile among them.
    fn tile_place(&self, tile: TileAt) -> usize
        requires { IsSome (tile_place tile (logic_tiles self.now.parts)) }
        ensures place { tile_place tile (logic_tiles self.now.parts) ≡ Some result }
        ensures small { result < MOST_TILES }
    {
        self.tiles.get_index_of(&tile).unwrap()
    }

    // The number of the pads.
    fn pad_count(&self) -> usize
        ensures count { result ≡ length self.now.bonded.pads }
        ensures few { result ≤ MOST_PADS }
    {
        self.package.pads.len()
    }

    /// The signal of the table of a cell of the chip; those of its flip-flop and of its carry have the next two numbers.
    pub fn cell_number(&self, tile: TileAt, cell: u8) -> u32
        requires { StandsAt self.now.parts tile cell }
        ensures number { result ≡ cell_number self.now.parts self.now.bonded.pads tile cell }
        ensures small { result < 2 ^ 30 }
    {
        cell_signal(self.pad_count(), self.tile_place(tile), cell)
    }

    // One of the signals of the pad of a number, of which each pad has five: those of the first pad are 2 to 6.
    fn pad_signal(&self, first: u32, pad: usize) -> SignalNo
        requires first { first < 7 }
        requires pad { pad < length self.now.bonded.pads }
        ensures { result ≡ signal (first + 5 * pad) }
    {
        let _count = self.pad_count();
        SignalNo(first + 5 * pad as u32)
    }

    // The signal of a root.
    fn number(&self, root: LevelRoot) -> SignalNo
        requires { IsNumbered self.now.parts self.now.bonded.pads root }
        ensures { result ≡ signal (root_number self.now.parts self.now.bonded.pads root) }
    {
        match root {
            LevelRoot::Fixed(level) => SignalNo(u32::from(level)),
            LevelRoot::Input(pad) => self.pad_signal(3, pad),
            LevelRoot::Taken(pad) => self.pad_signal(3, pad),
            LevelRoot::Given(pad) => self.pad_signal(4, pad),
            LevelRoot::Kept(pad) => self.pad_signal(5, pad),
            LevelRoot::Level(pad) => self.pad_signal(6, pad),
            LevelRoot::Table { tile, cell } => SignalNo(self.cell_number(tile, cell)),
            LevelRoot::Register { tile, cell } => SignalNo(self.cell_number(tile, cell) + 1),
            LevelRoot::Sum { tile, cell } => SignalNo(self.cell_number(tile, cell) + 2),
        }
    }

    /// What reads a root: an input that would read the level if it were missing is missing.
    pub fn reader_of(&self, bare: bool, root: LevelRoot) -> Option<SignalNo>
        requires { IsNumbered self.now.parts self.now.bonded.pads root }
        ensures { result ≡ reader_of self.now.parts self.now.bonded.pads bare root }
    {
        match root {
            LevelRoot::Fixed(level) if level == bare => None,
            _ => Some(self.number(root)),
        }
    }

    /// Whether the netlist has the register that takes what the pad gives.
    pub fn is_registered(&self, pad: Pad) -> bool
        ensures { result ≡ is_registered self.now.parts (bits_of self.now.configuration) pad }
    {
        has_input_register(self.chip, self.circuit.bits(), pad)
            && is_heard(self.chip, self.circuit, pad)
    }

    /// Whether the pad's level is on some global.
    pub fn feeds_global(&self, pad: Pad) -> bool
        ensures { result ≡ feeds_global self.now.parts (bits_of self.now.configuration)
            self.now.configuration.extras pad }
    {
        feeds_global(self.chip, self.circuit, pad)
    }

    // The root of a wire of the chip.
    fn wire_root(&self, wire: WireNo) -> LevelRoot
        requires { wire.0 < self.now.parts.wires }
        ensures root { result ≡ root_of self.now.parts (bits_of self.now.configuration)
            self.now.configuration.extras self.now.bonded.pads (Wire wire) }
        ensures numbered { IsNumbered self.now.parts self.now.bonded.pads result }
    {
        root_at(&self.roots, wire)
    }

    /// What reads the wire of a name in a tile; missing, where none has it.
    pub fn pin_reader(&self, bare: bool, tile: TileAt, name: &[u8]) -> Option<SignalNo>
        ensures { result ≡ pin_reader self.now.parts (bits_of self.now.configuration)
            self.now.configuration.extras self.now.bonded.pads bare tile name.now }
    {
        let wire = self.chip.wire_named(tile, name)?;
        self.reader_of(bare, self.wire_root(wire))
    }

    /// What reads the carry of a cell of the chip.
    pub fn carry_reader(&self, tile: TileAt, cell: u8) -> Option<SignalNo>
        requires { StandsAt self.now.parts tile cell }
        ensures { result ≡ reader self.now.parts (bits_of self.now.configuration)
            self.now.configuration.extras self.now.bonded.pads false (Some (Carry tile cell)) }
    {
        self.reader_of(false, carry_root(self.chip, self.bits(), tile, cell))
    }
}
