//! The sites of a chip.

use crate::places::{Grid, Place};
use crate::words::below;
use ice_base::{NoMemory, TileAt};
use ice_sites::Sites;
use rand_pcg::Pcg32;
use std::alloc::Global;

/// The sites, stretch by stretch.
#[derive(Drop)]
pub struct Floor {
    /// Their tiles.
    pub tiles: Vec<TileAt>,
    // The place of each.
    places: Vec<Place>,
    // For each the number of sites of its stretch from it on.
    room: Vec<usize>,
    // The site at each place, 64 rows for each column.
    sites: Vec<Option<usize>>,
    // How tiles are told apart.
    grid: Grid,
    /// How many columns and rows there are places of together.
    pub extent: u64,
}

// The number of a place.
fn number_of(place: Place) -> usize {
    usize::from(place.column) * 64 + usize::from(place.row)
}

// Adds a site, which begins so many of its stretch.
fn add_site(floor: &mut Floor, tile: TileAt, room: usize) -> Result<(), NoMemory> {
    let place = floor.grid.place_of(tile);
    let site = floor.tiles.len();
    if let Some(own) = floor.sites.get_mut(number_of(place)) {
        *own = Some(site);
    }
    let extent = u64::from(place.column) + u64::from(place.row) + 2;
    floor.extent = floor.extent.max(extent);
    floor.tiles.push(tile)?;
    floor.places.push(place)?;
    floor.room.push(room)?;
    Ok(())
}

// A number at most so far from this one, as a place along an axis.
fn beside(place: u8, reach: u8, words: &mut Pcg32) -> Option<u8> {
    let count = usize::from(reach) * 2 + 1;
    let moved = usize::from(place).saturating_add(below(words, count));
    let number = moved.checked_sub(usize::from(reach))?;
    if number < 64 {
        Some(number as u8)
    } else {
        None
    }
}

impl Floor {
    /// The sites of a chip.
    pub fn new(alloc: Global, grid: Grid, sites: &Sites) -> Result<Floor, NoMemory> {
        let mut floor = Floor {
            tiles: Vec::new(alloc),
            places: Vec::new(alloc),
            room: Vec::new(alloc),
            sites: vec![in alloc; None; 4096]?,
            grid,
            extent: 0,
        };
        for stretch in sites.stretches() {
            let tiles = stretch.tiles();
            for k in 0..tiles.len() {
                add_site(&mut floor, tiles[k], tiles.len() - k)?;
            }
        }
        Ok(floor)
    }

    /// The place of a tile.
    pub fn place_of(&self, tile: TileAt) -> Place {
        self.grid.place_of(tile)
    }

    /// The place of a site.
    pub fn place_at(&self, site: usize) -> Place {
        self.places
            .get(site)
            .copied()
            .unwrap_or(Place { column: 0, row: 0 })
    }

    /// The number of a tile's site.
    pub fn site_of(&self, tile: TileAt) -> usize {
        self.tiles
            .partition_point(|at| at.x < tile.x || at.x == tile.x && at.y < tile.y)
    }

    /// How many sites of its stretch there are from a site on.
    pub fn room_from(&self, site: usize) -> usize {
        self.room.get(site).copied().unwrap_or(0)
    }

    /// A site that is drawn from those at most so many columns and rows away from a place, where one is found.
    pub fn site_beside(&self, place: Place, reach: u8, words: &mut Pcg32) -> Option<usize> {
        let column = beside(place.column, reach, words)?;
        let row = beside(place.row, reach, words)?;
        self.sites
            .get(number_of(Place { column, row }))
            .copied()
            .flatten()
    }
}
