//! The rows of a whole chip database, in the order of its text.

ghost use Rattle.std.specs.Prelude.{◌≡◌};
ghost use Rattle.ice_chip.specs.Database.{no_parts};
ghost use Rattle.ice_chip.specs.Views.{parts_view};

use crate::{Function, Group, NameRow, Pad, TileLine};
use ice_base::{Name, TileAt};
use indexmap::{IndexMap, IndexSet};
use std::alloc::Global;

/// The pins and pads of a package.
#[derive(Drop)]
pub struct Package {
    /// The name of the package.
    pub name: Name,
    /// The pad of each pin, in the order of the text; of repeated pins the first counts.
    pub pins: IndexMap<Name, Pad>,
    /// The different pads of these pins, in the order of the text.
    pub pads: IndexSet<Pad>,
}

/// The rows of a chip database.
#[derive(Drop)]
pub struct ChipParts {
    /// The number of columns of places.
    pub width: u16,
    /// The number of rows of places.
    pub height: u16,
    /// The number of wires.
    pub wires: u32,
    /// The tiles with the lines of their headings.
    pub tiles: IndexMap<TileAt, TileLine>,
    /// The functions that are kept: those that are read, and those of PLLs and pairs of pads.
    pub functions: Vec<Function>,
    /// The names of wires, at places with and without a tile.
    pub names: Vec<NameRow>,
    /// The groups of switches.
    pub groups: Vec<Group>,
    /// The packages; of those with one name the first counts.
    pub packages: Vec<Package>,
    /// The tile whose `fabout` feeds a global, and the global; the first row of a global counts.
    pub gbufin: Vec<(TileAt, u8)>,
    /// The pad that can feed a global, and the global; the first row of a global counts.
    pub gbufpin: Vec<(Pad, u8)>,
    /// A global, and the extra bit that puts the level of its pad on it: bank and place; the first row of a global counts.
    pub padin: Vec<(u8, (u32, u32, u32))>,
    /// A pad, and the tile and number of its input enable; the first row of a pad counts.
    pub ieren: Vec<(Pad, Pad)>,
    /// The tile with the column buffer bits, and the tile that they serve; the first row of a served tile counts.
    pub colbuf: Vec<(TileAt, TileAt)>,
}

impl ChipParts {
    /// A database of this size without rows.
    pub fn new(alloc: Global, width: u16, height: u16, wires: u32) -> ChipParts
        ensures { parts_view result ≡ no_parts width height wires }
    {
        ChipParts {
            width,
            height,
            wires,
            tiles: IndexMap::new(alloc),
            functions: Vec::new(alloc),
            names: Vec::new(alloc),
            groups: Vec::new(alloc),
            packages: Vec::new(alloc),
            gbufin: Vec::new(alloc),
            gbufpin: Vec::new(alloc),
            padin: Vec::new(alloc),
            ieren: Vec::new(alloc),
            colbuf: Vec::new(alloc),
        }
    }
}
