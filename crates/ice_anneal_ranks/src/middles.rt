//! The places amid the nets of cells and of clusters, noted now and then.

use ice_anneal_moves::State;
use ice_anneal_reach::{Ends, Middle};
use ice_base::NoMemory;
use std::alloc::Global;

/// Where each cell and each cluster had its nets nearest when that was last noted.
#[derive(Drop)]
pub struct Middles {
    cells: Vec<Option<Middle>>,
    clusters: Vec<Option<Middle>>,
}

impl Middles {
    /// Nothing is noted of so many cells and clusters.
    pub fn new(alloc: Global, cells: usize, clusters: usize) -> Result<Middles, NoMemory> {
        Ok(Middles {
            cells: vec![in alloc; None; cells]?,
            clusters: vec![in alloc; None; clusters]?,
        })
    }

    /// The place amid the nets of a cell, where one is noted.
    pub fn of_cell(&self, cell: usize) -> Option<Middle> {
        self.cells.get(cell).copied().flatten()
    }

    /// The place amid those of the cells of a cluster, where one is noted.
    pub fn of_cluster(&self, cluster: usize) -> Option<Middle> {
        self.clusters.get(cluster).copied().flatten()
    }

    // The place amid those of the cells in these slots.
    fn among(&self, slots: &[Option<usize>]) -> Option<Middle> {
        let mut ends = Ends::none();
        for slot in slots {
            if let Some(cell) = *slot {
                if let Some(middle) = self.of_cell(cell) {
                    ends.add(middle.low, middle.high);
                }
            }
        }
        ends.middle()
    }

    // Notes the place of each cell anew.
    fn note_cells(&mut self, state: &State) {
        for cell in 0..self.cells.len() {
            let place = state.seats.place_of(state.seats.cluster_of(cell));
            let middle = state.nets.ends_without(cell, place).middle();
            if let Some(own) = self.cells.get_mut(cell) {
                *own = middle;
            }
        }
    }

    /// Notes all places anew.
    pub fn note(&mut self, state: &State) {
        self.note_cells(state);
        for cluster in 0..self.clusters.len() {
            let middle = self.among(state.seats.cells_of(cluster));
            if let Some(own) = self.clusters.get_mut(cluster) {
                *own = middle;
            }
        }
    }
}
