//! Wires by their names at places.
ghost use Rattle.std.specs.Prelude.{◌≡◌, map, IfOk, OnOk};
ghost use Rattle.std.specs.Map.{lookup};
ghost use Rattle.ice_chip.specs.Lookups.{placed_names, placed_wire};
ghost use Rattle.ice_chip.specs.Indices.{same_numbered, with_named, numbered};
ghost use Rattle.ice_base.specs.Lists.{with_name, number_of_name};
ghost use Rattle.ice_base.specs.Keys.{texts};
ghost use Rattle.ice_chip.specs.NameIndex.{numbered_of, no_names};
ghost use Rattle.ice_chip.specs.Views.{name_view, parts_view};

use crate::index::{NumberedName, note_first};
use crate::{ChipParts, NameRow};
use ice_base::{NoMemory, TileAt};
use indexmap::{IndexMap, IndexSet};
use std::alloc::Global;

/// The different names in the order of the text, and the wire that has the name of a number at a place.
#[derive(Drop)]
pub struct NameIndex {
    /// The names.
    pub texts: IndexSet<Vec<u8>>,
    /// The wires.
    pub wires: IndexMap<NumberedName, u32>,
}

// The number of a name; a new name goes last.
#[tactic(auto, using(ice_base::proofs::NameLists::found_names))]
fn number_of(alloc: Global, names: &mut IndexSet<Vec<u8>>, name: &[u8]) -> Result<usize, NoMemory>
    ensures number { IfOk result (λ n. n ≡ number_of_name (texts names.old.keys) name.now) }
    ensures appended { OnOk result
        (texts names.new.keys ≡ with_name (texts names.old.keys) name.now) }
{
    if let Some(number) = names.get_index_of(name) {
        return Ok(number);
    }
    let key = Vec::from_slice(alloc, name)?;
    let (number, _) = names.insert_full(key)?;
    Ok(number)
}

// The number of a name. One that isn't there has the number behind all that are.
#[tactic(auto, using(ice_base::proofs::NameLists::sought_number))]
fn number_sought(names: &IndexSet<Vec<u8>>, name: &[u8]) -> usize
    ensures { result ≡ number_of_name (texts names.now.keys) name.now }
{
    names.get_index_of(name).unwrap_or(names.len())
}

// Notes that the wire has the name at the place, unless another has it there already.
fn note_wire(alloc: Global, names: &mut NameIndex, row: &NameRow) -> Result<(), NoMemory>
    ensures { OnOk result (numbered_of names.new
        ≡ with_named (numbered_of names.old) (placed_wire (name_view row.now))) }
{
    let number = number_of(alloc, &mut names.texts, row.name.as_bytes())?;
    let key = NumberedName {
        tile: row.tile,
        number,
    };
    note_first(&mut names.wires, key, row.wire.0)
}

impl NameIndex {
    // Notes the names of these rows at places with a tile, in order.
    fn note_all(&mut self, alloc: Global, parts: &ChipParts) -> Result<(), NoMemory>
        ensures { OnOk result (numbered_of self.new ≡ numbered (numbered_of self.old)
            (map placed_wire (placed_names (parts_view parts.now)))) }
    {
        for row in &parts.names {
            if parts.tile_at(row.tile).is_some() {
                note_wire(alloc, self, row)?;
            }
        }
        Ok(())
    }

    /// The names of these rows at places with a tile.
    pub fn new(alloc: Global, parts: &ChipParts) -> Result<NameIndex, NoMemory>
        ensures { IfOk result (λ names. numbered_of names
            ≡ numbered no_names (map placed_wire (placed_names (parts_view parts.now)))) }
    {
        let wires = IndexMap::with_capacity(alloc, parts.names.len())?;
        let texts = IndexSet::new(alloc);
        let mut names = NameIndex { texts, wires };
        names.note_all(alloc, parts).and(Ok(names))
    }

    /// The wire that has the name at the place.
    pub fn wire(&self, tile: TileAt, name: &[u8]) -> Option<u32>
        ensures { result ≡ lookup
            (same_numbered
            (record { tile = tile; number = number_of_name (numbered_of self.now).texts name.now }))
            (numbered_of self.now).wires }
    {
        let number = number_sought(&self.texts, name);
        self.wires.get(&NumberedName { tile, number }).copied()
    }
}
