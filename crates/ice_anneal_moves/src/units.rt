//! What moves as a whole: a run with all its chunks, or a cluster of no run.

use ice_base::NoMemory;
use ice_cells::Cluster;
use std::alloc::Global;

/// So many clusters from this one on.
#[derive(Clone, Copy)]
pub struct MoveUnit {
    /// The first.
    pub first: usize,
    /// How many.
    pub count: usize,
}

impl MoveUnit {
    /// Whether a cluster is one of these.
    pub fn holds(&self, cluster: usize) -> bool {
        cluster >= self.first && cluster - self.first < self.count
    }
}

/// All units, and the unit of each cluster.
#[derive(Drop)]
pub struct Units {
    /// The units, in the order of clusters.
    pub list: Vec<MoveUnit>,
    of: Vec<MoveUnit>,
}

// Whether the second is a chunk of the run of which the first one is a chunk.
fn is_next(low: Option<(u32, u32)>, high: Option<(u32, u32)>) -> bool {
    match (low, high) {
        (Some(low), Some(high)) => low.0 == high.0,
        _ => false,
    }
}

// Adds a cluster to the last unit, where it is of the same run, or else as a unit.
fn add_cluster(units: &mut Vec<MoveUnit>, is_next: bool, cluster: usize) -> Result<(), NoMemory> {
    if let Some(unit) = units.last_mut() {
        if is_next {
            unit.count = unit.count.saturating_add(1);
            return Ok(());
        }
    }
    units.push(MoveUnit {
        first: cluster,
        count: 1,
    })?;
    Ok(())
}

// The units of clusters, in order.
fn units_of(alloc: Global, clusters: &[Cluster]) -> Result<Vec<MoveUnit>, NoMemory> {
    let mut units = Vec::new(alloc);
    let mut last = None;
    for (number, cluster) in clusters.iter().enumerate() {
        add_cluster(&mut units, is_next(last, cluster.run), number)?;
        last = cluster.run;
    }
    Ok(units)
}

impl Units {
    /// The units of clusters. It fails for want of memory alone.
    pub fn new(alloc: Global, clusters: &[Cluster]) -> Result<Units, NoMemory> {
        let list = units_of(alloc, clusters)?;
        let mut of = Vec::with_capacity(alloc, clusters.len())?;
        for unit in &list {
            for k in 0..unit.count {
                of.push(*unit)?;
            }
        }
        Ok(Units { list, of })
    }

    /// The unit of a cluster.
    pub fn of(&self, cluster: usize) -> MoveUnit {
        self.of.get(cluster).copied().unwrap_or(MoveUnit {
            first: cluster,
            count: 1,
        })
    }
}
