//! A chip: the rows of a database in which no fault is, each found at once.
ghost use Rattle.std.specs.Prelude.{◌≡◌, ◌<◌, None, Some, IfOk, map, length, slice_get, option_map};
ghost use Rattle.std.specs.Map.{lookup};
ghost use Rattle.ice_chip.specs.IsRead.{IsRead, IsChip};
ghost use Rattle.ice_chip.specs.Whole.{whole_fault};
ghost use Rattle.ice_chip.specs.Indices.{enables_of, numbered};
ghost use Rattle.ice_chip.specs.Database.{same_pad};
ghost use Rattle.ice_chip.specs.Lookups.{kind_at, names_of, wire_named, package_of, global_of, gbufpin_of, padin_of, ieren_of, colbuf_of, function_of, placed_names, placed_wire};
ghost use Rattle.ice_chip.specs.Listings.{tile_of, rows_of};
ghost use Rattle.ice_chip.specs.NameIndex.{numbered_of, no_names};
ghost use Rattle.ice_chip.specs.Views.{function_view, row_view, group_view, package_view, parts_view};

use crate::indices::{PlaceIndex, ServerIndex, WireIndex};
use crate::name_places::place_of;
use crate::names::NameIndex;
use crate::places::{row_among, rows_count};
use crate::{
    ChipParts, Function, Group, NamedParts, Package, Pad, PlacedName, Row, Tile, TileKind,
};
use ice_base::{NoMemory, RowNo, TileAt, WireNo, both};
use indexmap::IndexMap;
use std::alloc::Global;
use std::marker::Model;

/// A chip. Contracts see it as the rows of its database. No reader takes memory.
#[derive(Drop)]
pub struct Chip {
    // The rows.
    parts: ChipParts,
    // The tiles, and the wires with their names.
    wires: WireIndex,
    // What serves each global, pad and tile.
    servers: ServerIndex,
    // Where functions and packages stand.
    places: PlaceIndex,
}

impl Model for Chip {
    ghost use Rattle.ice_chip.specs.Database.{Parts};

    ghost Value = { Parts };

    ghost use Rattle.ice_chip.specs.ChipForm.{chip_view, IsIndexed};

    ghost view = { chip_view };

    ghost invariant = { IsIndexed };
}

impl Chip {
    // The chip of these rows, with the index of their names.
    fn indexed(alloc: Global, parts: ChipParts, names: NameIndex) -> Result<Chip, NoMemory>
        requires named { numbered_of names
            ≡ numbered no_names (map placed_wire (placed_names (parts_view parts))) }
        requires read { IsRead (parts_view parts) }
        requires faultless { whole_fault (parts_view parts) ≡ None }
        ensures { IfOk result (λ chip. chip ≡ parts_view parts) }
    {
        let wires = WireIndex::new(alloc, &parts, names);
        let servers = both(wires, ServerIndex::new(alloc, &parts));
        let Ok(((wires, servers), places)) = both(servers, PlaceIndex::new(alloc, &parts)) else {
            drop(parts);
            return Err(NoMemory);
        };
        Ok(Chip {
            parts,
            wires,
            servers,
            places,
        })
    }

    /// The chip of rows that have no fault, neither in a line of theirs nor as a whole. It fails for want of memory alone.
    pub fn new(alloc: Global, named: NamedParts) -> Result<Chip, NoMemory>
        requires read { IsRead named }
        requires faultless { whole_fault named ≡ None }
        ensures { IfOk result (λ chip. chip ≡ named) }
    {
        let (parts, names) = named.into_parts();
        Chip::indexed(alloc, parts, names)
    }

    /// The tiles in the order of the text.
    pub fn tiles(&self) -> &[Tile]
        ensures { result.now ≡ map tile_of self.now.tiles }
    {
        &self.wires.tiles
    }

    /// The groups of switches in the order of the text.
    pub fn groups(&self) -> &[Group]
        ensures { map group_view result.now ≡ self.now.groups }
    {
        &self.parts.groups
    }

    /// All functions that are kept, in the order of the text.
    pub fn functions(&self) -> &[Function]
        ensures { map function_view result.now ≡ self.now.functions }
    {
        &self.parts.functions
    }

    /// The number of the wires.
    pub fn wires(&self) -> u32
        ensures wires { result ≡ self.now.wires }
        ensures chip { IsChip self.now }
    {
        self.parts.wires
    }

    /// The rows of a chip have no fault.
    pub fn is_chip(&self)
        ensures { IsChip self.now }
    {
        // What holds of a chip is known where a field is looked at.
        let _ = &self.parts;
    }

    /// The number of the switch rows.
    pub fn rows(&self) -> u32
        ensures { result ≡ length (rows_of self.now.groups) }
    {
        rows_count(&self.parts.groups)
    }

    /// A switch row with its group. The number is in range.
    pub fn row(&self, row: RowNo) -> (&Group, &Row)
        requires { row.0 < length (rows_of self.now.groups) }
        ensures { slice_get (rows_of self.now.groups) row.0
            ≡ Some (group_view result.0.now, row_view result.1.now) }
    {
        row_among(&self.parts.groups, row.0)
    }

    /// The names of a wire at places with a tile, in the order of the text. The wire is one of the chip.
    #[tactic(auto, using(crate::proofs::Readers::list_within, crate::proofs::Readers::names_found))]
    pub fn names(&self, wire: WireNo) -> &[PlacedName]
        requires { wire.0 < self.now.wires }
        ensures { result.now ≡ names_of self.now wire.0 }
    {
        &self.wires.lists[wire.0 as usize]
    }

    /// The kind of the tile at a place, or None exactly where no tile stands there.
    pub fn kind_at(&self, tile: TileAt) -> Option<TileKind>
        ensures { result ≡ kind_at self.now tile }
    {
        self.parts.tile_at(tile).map(|known| known.kind)
    }

    /// The wire that has the name at the place, or None exactly where none has it.
    #[tactic(auto, using(crate::proofs::Readers::wire_found))]
    pub fn wire_named(&self, tile: TileAt, name: &[u8]) -> Option<WireNo>
        ensures { option_map (λ wire. wire.0) result ≡ wire_named self.now tile name.now }
    {
        self.wires.names.wire(tile, name).map(WireNo)
    }

    /// The first package of the name, or None exactly where there is none.
    pub fn package(&self, name: &[u8]) -> Option<&Package>
        ensures { option_map (λ p. package_view p.now) result ≡ package_of self.now name.now }
    {
        let place = place_of(&self.places.packages, name)?;
        self.parts.packages.get(place)
    }

    /// The pad whose input enable and pull-up serve this pad, or None exactly where no row that counts says so.
    #[tactic(auto, using(crate::proofs::Readers::enable_found))]
    pub fn ieren_of(&self, pad: Pad) -> Option<Pad>
        ensures { result ≡ ieren_of self.now pad }
    {
        self.servers.enables.get(&pad).copied()
    }

    /// The pads with an input enable by a row that counts, each with the pad whose enable and pull-up serve it, in the
    /// order of the text. Of the rows of one pad the first counts, as in `ieren_of`.
    pub fn enables(&self) -> &IndexMap<Pad, Pad>
        ensures enables { result.now.entries ≡ enables_of self.now }
        ensures found { (pad : Pad)
            → lookup (same_pad pad) result.now.entries ≡ ieren_of self.now pad }
    {
        &self.servers.enables
    }

    /// The tile that holds the column buffers of a tile, or None exactly where no row that counts says so.
    #[tactic(auto, using(crate::proofs::Readers::buffer_found))]
    pub fn colbuf_of(&self, tile: TileAt) -> Option<TileAt>
        ensures { result ≡ colbuf_of self.now tile }
    {
        self.servers.buffers.get(&tile).copied()
    }

    /// The first function of the kind and name, or None exactly where there is none.
    pub fn function(&self, kind: TileKind, name: &[u8]) -> Option<&Function>
        ensures { option_map (λ f. function_view f.now) result
            ≡ function_of self.now kind name.now }
    {
        let place = self.places.functions.find(kind, name)?;
        self.parts.functions.get(place)
    }

    /// The tile whose `fabout` feeds a global, or None exactly where no row says so.
    #[tactic(auto, using(crate::proofs::Readers::global_found))]
    pub fn global_of(&self, n: u8) -> Option<TileAt>
        ensures { result ≡ global_of self.now n }
    {
        self.servers.globals.tiles.get(&n).copied()
    }

    /// The pad that can feed a global directly, or None exactly where no row says so.
    #[tactic(auto, using(crate::proofs::Readers::global_pad_found))]
    pub fn gbufpin_of(&self, n: u8) -> Option<Pad>
        ensures { result ≡ gbufpin_of self.now n }
    {
        self.servers.globals.pads.get(&n).copied()
    }

    /// The extra bit, as bank and place, that puts the level of that pad on the global, or None exactly where no row says so.
    pub fn padin_of(&self, n: u8) -> Option<(u32, u32, u32)>
        ensures { result ≡ padin_of self.now n }
    {
        self.servers.globals.extras.get(&n).copied()
    }
}
