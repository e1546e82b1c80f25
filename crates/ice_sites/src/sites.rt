//! The sites of a chip, stretch by stretch.
ghost use Rattle.std.specs.Prelude.{◌≡◌, IfOk};
ghost use Rattle.ice_sites.specs.Stretches.{stretches_of};

use crate::ordered::sites_in_order;
use crate::stretches::stretches_in;
use ice_base::{NoMemory, TileAt};
use ice_bits_rows::Index;
use ice_chip::Chip;
use std::alloc::Global;
use std::marker::Model;

/// A longest piece of linked sites. Contracts see it as the list of its tiles, from below.
#[derive(Drop)]
pub struct Stretch {
    tiles: Vec<TileAt>,
}

impl Model for Stretch {
    ghost use Rattle.std.specs.Prelude.{List};
    ghost use Rattle.ice_base.specs.declared.number.TileAt.{TileAt};

    ghost Value = { List TileAt };

    ghost view = { λ stretch. stretch.tiles.items };
}

impl Stretch {
    /// The tiles of the stretch, from below.
    pub fn tiles(&self) -> &[TileAt]
        ensures { result.now ≡ self.now }
    {
        self.tiles.as_slice()
    }

    // The stretch of these tiles. Takes no memory.
    pub(crate) fn of(tiles: Vec<TileAt>) -> Stretch
        ensures { result ≡ tiles.items }
    {
        Stretch { tiles }
    }
}

/// The sites of a chip. Contracts see them as the list of its stretches, by column and then from below.
#[derive(Drop)]
pub struct Sites {
    stretches: Vec<Stretch>,
}

impl Model for Sites {
    ghost use Rattle.std.specs.Prelude.{List};
    ghost use Rattle.ice_base.specs.declared.number.TileAt.{TileAt};

    ghost Value = { List (List TileAt) };

    ghost view = { λ sites. sites.stretches.items };
}

impl Sites {
    /// The stretches, by column and then from below.
    pub fn stretches(&self) -> &[Stretch]
        ensures { result.now ≡ self.now }
    {
        self.stretches.as_slice()
    }
}

/// The sites of an indexed chip, as [`sites_of`] finds them.
pub fn sites_by(alloc: Global, index: &Index) -> Result<Sites, NoMemory>
    ensures { IfOk result (λ sites. sites ≡ stretches_of index.now.chip.now) }
{
    let sites = sites_in_order(alloc, index)?;
    let stretches = stretches_in(alloc, index, &sites)?;
    Ok(Sites { stretches })
}

/// The sites of a chip, in longest linked pieces. A site is a logic tile that has the inputs and the output of eight cells,
/// the carry outputs of the first seven, a clock, an enable, a set or reset and `carry_in_mux`, and sound rows from
/// `carry_in_mux` to input 3 of the first cell and from each carry output to input 3 of the next. Two sites of a column are
/// linked where the upper one stands directly above the lower one, its `carry_in` is the carry output of the lower one's
/// last cell, and a sound row leads from that to its `carry_in_mux`. It fails for want of memory alone.
pub fn sites_of(alloc: Global, chip: &Chip) -> Result<Sites, NoMemory>
    ensures { IfOk result (λ sites. sites ≡ stretches_of chip.now) }
{
    let index = Index::new(alloc, chip)?;
    let sites = sites_by(alloc, &index)?;
    Ok(sites)
}
