//! All sites.
ghost use Rattle.std.specs.Prelude.{◌≡◌, ◌++◌, IfOk, OnOk, filter};
ghost use Rattle.ice_base.specs.declared.number.TileAt.{TileAt};
ghost use Rattle.ice_place.specs.Place.{joined};
ghost use Rattle.ice_anneal.specs.Full.{has_tile, is_free, full_of};

use ice_base::{NoMemory, TileAt};
use ice_sites::Stretch;
use indexmap::IndexSet;
use std::alloc::Global;

// The tiles of a placement, each once.
fn taken_by(alloc: Global, at: &[TileAt]) -> Result<IndexSet<TileAt>, NoMemory>
    ensures { IfOk result (λ taken. (t : TileAt) → has_tile taken.keys t ≡ has_tile at.now t) }
{
    let mut taken = IndexSet::with_capacity(alloc, at.len())?;
    for tile in at {
        taken.insert(*tile)?;
    }
    Ok(taken)
}

// Adds the free ones of these sites.
fn add_free(
    all: &mut Vec<TileAt>,
    taken: &IndexSet<TileAt>,
    sites: &[TileAt],
) -> Result<(), NoMemory>
    ensures { OnOk result
        (all.new.items ≡ all.old.items ++ filter (is_free taken.now.keys) sites.now) }
{
    for tile in sites {
        if !taken.contains(tile) {
            all.push(*tile)?;
        }
    }
    Ok(())
}

// Adds the free ones of the sites of these stretches.
fn add_stretches(
    all: &mut Vec<TileAt>,
    taken: &IndexSet<TileAt>,
    stretches: &[Stretch],
) -> Result<(), NoMemory>
    ensures { OnOk result
        (all.new.items ≡ all.old.items ++ filter (is_free taken.now.keys) (joined stretches.now)) }
{
    for stretch in stretches {
        add_free(all, taken, stretch.tiles())?;
    }
    Ok(())
}

/// The tiles of a placement, and behind them those of the free sites.
pub fn full_of(alloc: Global, stretches: &[Stretch], at: &[TileAt]) -> Result<Vec<TileAt>, NoMemory>
    ensures { IfOk result (λ all. all.items ≡ full_of stretches.now at.now) }
{
    let taken = taken_by(alloc, at)?;
    let mut all = Vec::from_slice(alloc, at)?;
    add_stretches(&mut all, &taken, stretches)?;
    Ok(all)
}
