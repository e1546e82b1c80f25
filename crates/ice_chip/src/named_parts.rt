//! The rows of a database with the index of their names.
ghost use Rattle.std.specs.Prelude.{◌≡◌, [], None, true, map, IfOk};
ghost use Rattle.ice_chip.specs.Indices.{numbered};
ghost use Rattle.ice_chip.specs.Lookups.{placed_names, placed_wire};
ghost use Rattle.ice_chip.specs.NameIndex.{numbered_of, no_names};
ghost use Rattle.ice_chip.specs.WholeFaults.{name_of_two_wires};
ghost use Rattle.ice_chip.specs.Views.{parts_view};

use crate::ChipParts;
use crate::names::NameIndex;
use ice_base::NoMemory;
use std::alloc::Global;
use std::marker::Model;

/// The rows of a database with the index of their names. Contracts see it as the rows.
#[derive(Drop)]
pub struct NamedParts {
    // The rows.
    parts: ChipParts,
    // The wires by their names at places.
    names: NameIndex,
}

impl Model for NamedParts {
    ghost use Rattle.ice_chip.specs.Database.{Parts};

    ghost Value = { Parts };

    ghost use Rattle.ice_chip.specs.NamedForm.{named_view, IsNamed};

    ghost view = { named_view };

    ghost invariant = { IsNamed };
}

impl NamedParts {
    /// These rows with the index of their names.
    ///
    /// # Errors
    /// Want of memory alone.
    pub fn new(alloc: Global, parts: ChipParts) -> Result<NamedParts, NoMemory>
        ensures { IfOk result (λ named. named ≡ parts_view parts) }
    {
        let Ok(names) = NameIndex::new(alloc, &parts) else {
            drop(parts);
            return Err(NoMemory);
        };
        Ok(NamedParts { parts, names })
    }

    /// The rows.
    pub fn parts(&self) -> &ChipParts
        ensures { parts_view result.now ≡ self.now }
    {
        &self.parts
    }

    /// Whether the rows name different places and texts each, at places with a tile. Then no name in a tile is one of two
    /// wires. Where this is false, that may hold too.
    pub fn are_different(&self) -> bool
        ensures { result ≡ true → name_of_two_wires self.now.tiles [] self.now.names ≡ None }
    {
        self.names.wires.len() == self.parts.names.len()
    }

    /// The rows, and the index of their names.
    pub fn into_parts(self) -> (ChipParts, NameIndex)
        ensures rows { parts_view result.0 ≡ self }
        ensures names { numbered_of result.1
            ≡ numbered no_names (map placed_wire (placed_names (parts_view result.0))) }
    {
        let NamedParts { parts, names } = self;
        (parts, names)
    }
}
