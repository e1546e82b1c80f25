//! All sites in order, and which of them stand one behind the other.
ghost use Rattle.std.specs.Prelude.{◌≡◌, ◌++◌, ◌≤◌, ◌<◌, List, true, length, slice_index_or, IfOk, OnOk};
ghost use Rattle.ice_base.specs.declared.number.TileAt.{TileAt};
ghost use Rattle.ice_sites.specs.Legal.{Follows, tile_at};
ghost use Rattle.ice_anneal.specs.Order.{rooms, IsOrder};

use ice_base::{NoMemory, TileAt};
use ice_sites::Stretch;
use std::alloc::Global;

/// The sites, stretch by stretch; of each, how many sites of its stretch there are from it on.
#[derive(Drop)]
pub struct SiteOrder {
    pub tiles: Vec<TileAt>,
    pub room: Vec<usize>,
}

// Adds the sites of a stretch.
fn add_stretch(order: &mut SiteOrder, sites: &[TileAt]) -> Result<(), NoMemory>
    ensures tiles { OnOk result (order.new.tiles.items ≡ order.old.tiles.items ++ sites.now) }
    ensures room { OnOk result (order.new.room.items ≡ order.old.room.items ++ rooms sites.now) }
{
    for k in 0..sites.len() {
        order.tiles.push(sites[k])?;
        order.room.push(sites.len() - k)?;
    }
    Ok(())
}

/// The sites of these stretches, in order.
pub fn order_of(alloc: Global, stretches: &[Stretch]) -> Result<SiteOrder, NoMemory>
    ensures { IfOk result (λ order. IsOrder stretches.now order) }
{
    let mut order = SiteOrder {
        tiles: Vec::new(alloc),
        room: Vec::new(alloc),
    };
    for stretch in stretches {
        add_stretch(&mut order, stretch.tiles())?;
    }
    Ok(order)
}

// Whether this tile is that of a number.
fn is_at(tiles: &[TileAt], site: usize, tile: TileAt) -> bool
    ensures { result ≡ true → tile_at tiles.now site ≡ tile }
{
    match tiles.get(site) {
        None => false,
        Some(at) => at.x == tile.x && at.y == tile.y,
    }
}

impl SiteOrder {
    /// How many sites of its stretch there are from a site on.
    pub fn room_from(&self, site: usize) -> usize
        ensures { result ≡ slice_index_or self.now.room.items site 0 }
    {
        self.room.get(site).copied().unwrap_or(0)
    }

    /// How many sites stand before a tile, by column and then from below: the number of the site, where it is one.
    pub fn number_of(&self, tile: TileAt) -> usize
        ensures { result ≤ length self.now.tiles.items }
    {
        self.tiles
            .partition_point(|at| at.x < tile.x || at.x == tile.x && at.y < tile.y)
    }

    /// Whether it is found that a tile stands directly behind another in a stretch.
    pub fn is_behind(&self, low: TileAt, high: TileAt) -> bool
        ensures { result ≡ true → (stretches : List (List TileAt)) → IsOrder stretches self.now
            → Follows stretches low high }
    {
        let site = self.number_of(low);
        if self.room_from(site) < 2 || !is_at(&self.tiles, site, low) {
            return false;
        }
        is_at(&self.tiles, site + 1, high)
    }
}
