//! Which cluster stands on which site, and which cell in which slot.

use crate::floor::Floor;
use crate::places::Place;
use ice_base::{NoMemory, TileAt, to_u32};
use ice_cells::{Cluster, Items};
use ice_place::Placement;
use std::alloc::Global;

/// The site of each cluster and the cluster of each site, the slot of each cell and the cell of each slot. Slot k of cluster c has the
/// number 8 c + k.
#[derive(Drop)]
pub struct Seats {
    sites: Vec<usize>,
    places: Vec<Place>,
    on: Vec<Option<usize>>,
    slots: Vec<usize>,
    cells: Vec<Option<usize>>,
}

// Adds a slot, with the cell that stands there.
fn add_slot(seats: &mut Seats, cell: Option<u32>) -> Result<(), NoMemory> {
    let slot = seats.cells.len();
    let Some(cell) = cell else {
        seats.cells.push(None)?;
        return Ok(());
    };
    seats.cells.push(Some(cell as usize))?;
    if let Some(own) = seats.slots.get_mut(cell as usize) {
        *own = slot;
    }
    Ok(())
}

// Adds the slots of a cluster, of which there are eight.
fn add_slots(seats: &mut Seats, cluster: &Cluster) -> Result<(), NoMemory> {
    for slot in cluster.cells.as_slice() {
        add_slot(seats, *slot)?;
    }
    Ok(())
}

// Adds a cluster that stands on a tile.
fn add_site(seats: &mut Seats, floor: &Floor, tile: TileAt) -> Result<(), NoMemory> {
    let (cluster, site) = (seats.sites.len(), floor.site_of(tile));
    seats.sites.push(site)?;
    seats.places.push(floor.place_of(tile))?;
    if let Some(held) = seats.on.get_mut(site) {
        *held = Some(cluster);
    }
    Ok(())
}

impl Seats {
    /// The cells of clusters, so many, as they stand in a placement.
    pub fn new(
        alloc: Global,
        floor: &Floor,
        clusters: &[Cluster],
        placement: &Placement,
        cells: usize,
    ) -> Result<Seats, NoMemory> {
        let mut seats = Seats {
            sites: Vec::with_capacity(alloc, clusters.len())?,
            places: Vec::with_capacity(alloc, clusters.len())?,
            on: vec![in alloc; None; floor.tiles.len()]?,
            slots: vec![in alloc; 0; cells]?,
            cells: Vec::new(alloc),
        };
        for tile in placement.tiles() {
            add_site(&mut seats, floor, *tile)?;
        }
        for cluster in clusters {
            add_slots(&mut seats, cluster)?;
        }
        Ok(seats)
    }

    /// The slot of a cell.
    pub fn slot_of(&self, cell: usize) -> usize {
        self.slots.get(cell).copied().unwrap_or(0)
    }

    /// The cluster of a cell.
    pub fn cluster_of(&self, cell: usize) -> usize {
        self.slot_of(cell) / 8
    }

    /// How many clusters there are.
    pub fn clusters(&self) -> usize {
        self.sites.len()
    }

    /// The place of a cluster.
    pub fn place_of(&self, cluster: usize) -> Place {
        self.places
            .get(cluster)
            .copied()
            .unwrap_or(Place { column: 0, row: 0 })
    }

    /// The site of a cluster.
    pub fn site_of(&self, cluster: usize) -> usize {
        self.sites.get(cluster).copied().unwrap_or(0)
    }

    /// The cluster on a site.
    pub fn cluster_on(&self, site: usize) -> Option<usize> {
        self.on.get(site).copied().flatten()
    }

    // Puts what may be a cluster onto a site.
    fn settle(&mut self, cluster: Option<usize>, site: usize, place: Place) {
        if let Some(held) = self.on.get_mut(site) {
            *held = cluster;
        }
        if let Some(cluster) = cluster {
            if let Some(own) = self.sites.get_mut(cluster) {
                *own = site;
            }
            if let Some(own) = self.places.get_mut(cluster) {
                *own = place;
            }
        }
    }

    /// What stands on two sites, at these places, changes places.
    pub fn exchange_sites(&mut self, one: usize, other: usize, from: Place, to: Place) {
        let (here, there) = (self.cluster_on(one), self.cluster_on(other));
        self.settle(here, other, to);
        self.settle(there, one, from);
    }

    /// The cell in a slot of a cluster.
    pub fn cell_at(&self, cluster: usize, slot: usize) -> Option<usize> {
        let number = cluster.saturating_mul(8).saturating_add(slot);
        self.cells.get(number).copied().flatten()
    }

    /// The slots of a cluster.
    pub fn cells_of(&self, cluster: usize) -> &[Option<usize>] {
        let first = cluster.saturating_mul(8);
        self.cells
            .get(first..first.saturating_add(8))
            .unwrap_or(&[])
    }

    // Puts a cell into a slot.
    fn put(&mut self, cell: usize, slot: usize) {
        if let Some(own) = self.slots.get_mut(cell) {
            *own = slot;
        }
        if let Some(held) = self.cells.get_mut(slot) {
            *held = Some(cell);
        }
    }

    /// Two cells change places.
    pub fn exchange(&mut self, one: usize, other: usize) {
        let (slot, target) = (self.slot_of(one), self.slot_of(other));
        self.put(one, target);
        self.put(other, slot);
    }

    /// The tile of each cluster.
    pub fn tiles(&self, alloc: Global, floor: &Floor) -> Result<Items<TileAt>, NoMemory> {
        let mut tiles = Vec::with_capacity(alloc, self.sites.len())?;
        for site in &self.sites {
            if let Some(tile) = floor.tiles.get(*site) {
                tiles.push(*tile)?;
            }
        }
        Ok(Items::from_vec(tiles))
    }

    /// The number of each cell's slot.
    pub fn ranks(&self, alloc: Global) -> Result<Items<u32>, NoMemory> {
        let mut ranks = Vec::with_capacity(alloc, self.slots.len())?;
        for slot in &self.slots {
            ranks.push(to_u32(*slot)?)?;
        }
        Ok(Items::from_vec(ranks))
    }
}
