//! The words that block RAMs hold before the first step.
ghost use Rattle.std.specs.Prelude.{◌≡◌, [], ◌∷◌, ◌++◌, IfOk, OnOk, OnErr};
ghost use Rattle.ice_bits.specs.ContentViews.{contents_view};

use ice_base::{NoMemory, TileAt};
use std::alloc::Global;
use std::marker::Model;

/// A word of a block RAM, with its lowest bit first.
pub type RamWord = [bool; 16];

/// The words of block RAMs, in order, each RAM by its lower tile.
#[derive(Drop)]
pub(crate) struct Contents {
    // The words of each RAM.
    held: Vec<(TileAt, Vec<RamWord>)>,
}

impl Model for Contents {
    ghost use Rattle.std.specs.Prelude.{List, Bool};
    ghost use Rattle.ice_base.specs.declared.number.TileAt.{TileAt};
    ghost use Rattle.ice_bits.specs.ContentViews.{contents_view};

    ghost Value = { List (TileAt × List (List Bool)) };

    ghost view = { λ contents. contents_view contents.held.items };
}

// Equal copies of the words of block RAMs.
fn copies_of(
    alloc: Global,
    all: &[(TileAt, Vec<RamWord>)],
) -> Result<Vec<(TileAt, Vec<RamWord>)>, NoMemory>
    ensures { IfOk result (λ held. contents_view held.items ≡ contents_view all.now) }
{
    let mut held = Vec::with_capacity(alloc, all.len())?;
    for content in all {
        let words = Vec::from_slice(alloc, &content.1)?;
        held.push((content.0, words))?;
    }
    Ok(held)
}

impl Contents {
    /// No contents. It takes no memory.
    pub(crate) fn new(alloc: Global) -> Contents
        ensures { result ≡ [] }
    {
        Contents {
            held: Vec::new(alloc),
        }
    }

    /// An equal copy.
    pub(crate) fn copy(&self, alloc: Global) -> Result<Contents, NoMemory>
        ensures { IfOk result (λ copy. copy ≡ self.now) }
    {
        let held = copies_of(alloc, &self.held)?;
        Ok(Contents { held })
    }

    /// Adds the words of a RAM behind the others. After want of memory there are none of it.
    pub(crate) fn push(&mut self, tile: TileAt, words: Vec<RamWord>) -> Result<(), NoMemory>
        ensures pushed { OnOk result (self.new ≡ self.old ++ (tile, words.items) ∷ []) }
        ensures refused { OnErr result (self.new ≡ self.old) }
    {
        self.held.push((tile, words))?;
        Ok(())
    }

    /// The words of each RAM.
    pub(crate) fn held(&self) -> &[(TileAt, Vec<RamWord>)]
        ensures { contents_view result.now ≡ self.now }
    {
        &self.held
    }
}
