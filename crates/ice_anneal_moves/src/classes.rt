//! Which cells may stand in each other's slots: plain cells, and flip-flops that are driven alike. Cells of runs stay.

use ice_anneal_seats::Seats;
use ice_base::NoMemory;
use ice_cells::{Cluster, Control, Design, Run};
use std::alloc::Global;

/// A cell, and the cells of its class, itself among them: so many in a list, from a number on.
#[derive(Clone, Copy)]
pub struct Mover {
    /// The cell.
    pub cell: usize,
    /// Where its class begins.
    pub first: usize,
    /// How many cells are of its class.
    pub count: usize,
}

/// All cells that may move, class by class.
#[derive(Drop)]
pub struct Movers {
    /// The cells.
    pub list: Vec<Mover>,
    classes: Vec<Option<usize>>,
}

impl Movers {
    /// No cells.
    pub fn none(alloc: Global) -> Movers {
        Movers {
            list: Vec::new(alloc),
            classes: Vec::new(alloc),
        }
    }

    /// The cells of the class of one that may move.
    pub fn class_of(&self, mover: Mover) -> &[Mover] {
        let end = mover.first.saturating_add(mover.count);
        self.list.get(mover.first..end).unwrap_or(&[])
    }

    /// Whether a cell is of the class of one that may move.
    pub fn is_like(&self, mover: Mover, cell: usize) -> bool {
        self.classes.get(cell).copied().flatten() == Some(mover.first)
    }
}

// Cells that may stand in each other's slots.
#[derive(Drop)]
struct Class {
    cells: Vec<usize>,
}

// The classes as they are found: plain cells, and flip-flops by the control sets, which come one after another.
#[derive(Drop)]
struct Classes {
    plains: Class,
    flops: Vec<Class>,
    last: Option<Control>,
}

// Notes which cells stand in runs.
fn held_cells(alloc: Global, cells: usize, runs: &[Run]) -> Result<Vec<bool>, NoMemory> {
    let mut held = vec![in alloc; false; cells]?;
    for run in runs {
        for cell in run.cells.as_slice() {
            if let Some(is_held) = held.get_mut(*cell as usize) {
                *is_held = true;
            }
        }
    }
    Ok(held)
}

// Adds a cell to its class.
fn add_cell(
    classes: &mut Classes,
    design: &Design,
    held: &[bool],
    cell: usize,
) -> Result<(), NoMemory> {
    if held.get(cell).copied().unwrap_or(true) {
        return Ok(());
    }
    let is_plain = match design.cells().get(cell) {
        Some(cell) => cell.flop.is_none(),
        None => return Ok(()),
    };
    if is_plain {
        classes.plains.cells.push(cell)?;
    } else if let Some(class) = classes.flops.last_mut() {
        class.cells.push(cell)?;
    }
    Ok(())
}

// Adds the cells of a cluster to their classes.
fn add_cluster(
    alloc: Global,
    classes: &mut Classes,
    design: &Design,
    held: &[bool],
    cluster: &Cluster,
) -> Result<(), NoMemory> {
    if cluster.run.is_none() && cluster.control.is_some() && cluster.control != classes.last {
        classes.flops.push(Class {
            cells: Vec::new(alloc),
        })?;
        classes.last = cluster.control;
    }
    for slot in cluster.cells.as_slice() {
        if let Some(cell) = slot {
            add_cell(classes, design, held, *cell as usize)?;
        }
    }
    Ok(())
}

// Adds the cells of a class, where they stand in several clusters.
fn add_class(movers: &mut Movers, seats: &Seats, class: &Class) -> Result<(), NoMemory> {
    let first = movers.list.len();
    let count = class.cells.len();
    let is_apart = class.cells.windows(2).any(|pair| seats.cluster_of(pair[0])
        != seats.cluster_of(pair[1]));
    if !is_apart {
        return Ok(());
    }
    for &cell in &class.cells {
        movers.list.push(Mover { cell, first, count })?;
        if let Some(own) = movers.classes.get_mut(cell) {
            *own = Some(first);
        }
    }
    Ok(())
}

/// The cells that may change places with one of another cluster, class by class. It fails for want of memory alone.
pub fn movers_of(
    alloc: Global,
    design: &Design,
    clusters: &[Cluster],
    seats: &Seats,
) -> Result<Movers, NoMemory> {
    let held = held_cells(alloc, design.cells().len(), design.runs())?;
    let mut classes = Classes {
        plains: Class {
            cells: Vec::new(alloc),
        },
        flops: Vec::new(alloc),
        last: None,
    };
    for cluster in clusters {
        add_cluster(alloc, &mut classes, design, &held, cluster)?;
    }
    let mut movers = Movers {
        list: Vec::new(alloc),
        classes: vec![in alloc; None; design.cells().len()]?,
    };
    add_class(&mut movers, seats, &classes.plains)?;
    for class in &classes.flops {
        add_class(&mut movers, seats, class)?;
    }
    Ok(movers)
}
