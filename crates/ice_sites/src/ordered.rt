//! The sites of a chip in order.
ghost use Rattle.std.specs.Prelude.{◌≡◌, ◌==◌, ◌++◌, filter, map, IfOk, OnOk};
ghost use Rattle.std.specs.List.{list_any};
ghost use Rattle.ice_chip.specs.Listings.{tile_of};
ghost use Rattle.ice_sites.specs.Site.{is_site};
ghost use Rattle.ice_sites.specs.Stretches.{column, sites_in_order};

use crate::site::is_site;
use ice_base::{NoMemory, TileAt};
use ice_bits_rows::Index;
use ice_chip::Chip;
use std::alloc::Global;

// Whether a tile stands in the column.
fn has_tile(chip: &Chip, x: u16) -> bool
    ensures { result ≡ list_any (λ t. x == t.at.x) (map tile_of chip.now.tiles) }
{
    for tile in chip.tiles() {
        if x == tile.at.x {
            return true;
        }
    }
    false
}

// Adds the sites of a column, from below.
fn add_column(index: &Index, x: u16, sites: &mut Vec<TileAt>) -> Result<(), NoMemory>
    ensures { OnOk result
        (sites.new.items ≡ sites.old.items ++ filter (is_site index.now.chip.now) (column x 256)) }
{
    for y in 0..256 {
        let tile = TileAt { x, y };
        if is_site(index, tile) {
            sites.push(tile)?;
        }
    }
    Ok(())
}

// Adds the sites of a column, where a tile stands in it.
fn add_sites(index: &Index, x: u16, sites: &mut Vec<TileAt>) -> Result<(), NoMemory>
    ensures { OnOk result
        (sites.new.items ≡ sites.old.items ++ filter (is_site index.now.chip.now) (column x 256)) }
{
    if !has_tile(index.chip, x) {
        return Ok(());
    }
    add_column(index, x, sites)
}

/// The sites of a chip, by column and then from below.
pub fn sites_in_order(alloc: Global, index: &Index) -> Result<Vec<TileAt>, NoMemory>
    ensures { IfOk result (λ sites. sites.items ≡ sites_in_order index.now.chip.now) }
{
    let mut sites = Vec::new(alloc);
    for x in 0..256 {
        add_sites(index, x, &mut sites)?;
    }
    Ok(sites)
}
