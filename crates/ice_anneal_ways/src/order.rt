//! The cells in an order in which each stands behind those that it waits for.

use ice_base::NoMemory;
use ice_cells::{LogicCell, Root, Run};
use std::alloc::Global;

/// How many cells one behind the other are told apart. What waits longer stands in any order.
const MOST_LEVELS: u32 = 255;

/// The cell before each in its run, where there is one.
pub fn before_of(
    alloc: Global,
    cells: usize,
    runs: &[Run],
) -> Result<Vec<Option<usize>>, NoMemory> {
    let mut before = vec![in alloc; None; cells]?;
    for run in runs {
        for pair in run.cells.as_slice().windows(2) {
            if let Some(own) = before.get_mut(pair[1] as usize) {
                *own = Some(pair[0] as usize);
            }
        }
    }
    Ok(before)
}

// The cells of a design, and how many stand one behind the other before each, as far as it is found.
#[derive(Drop)]
struct Levels<'a> {
    cells: &'a [LogicCell],
    before: &'a [Option<usize>],
    found: Vec<u32>,
}

impl<'a> Levels<'a> {
    // The level behind that of a cell.
    fn behind(&self, cell: usize) -> u32 {
        match self.found.get(cell) {
            Some(level) => level.saturating_add(1),
            None => 0,
        }
    }

    // The level at which what an input reads is there: that of a flip-flop is there at first.
    fn level_at(&self, input: Option<Root>) -> u32 {
        let Some(Root::CellOut(cell)) = input else {
            return 0;
        };
        match self.cells.get(cell as usize) {
            Some(other) if other.flop.is_none() => self.behind(cell as usize),
            _ => 0,
        }
    }

    // The level of a cell by those of others.
    fn level_of(&self, number: usize, cell: &LogicCell) -> u32 {
        let mut level = match self.before.get(number).copied().flatten() {
            Some(other) => self.behind(other),
            None => 0,
        };
        for input in &cell.ins {
            level = level.max(self.level_at(*input));
        }
        level.min(MOST_LEVELS)
    }

    // Looks at each cell once. Whether the level of any rose.
    fn rise(&mut self) -> bool {
        let mut has_risen = false;
        for (number, cell) in self.cells.iter().enumerate() {
            let level = self.level_of(number, cell);
            if let Some(own) = self.found.get_mut(number) {
                has_risen = has_risen || *own < level;
                *own = level;
            }
        }
        has_risen
    }
}

/// The cells, each behind those whose tables or carries it waits for.
pub fn order_of(
    alloc: Global,
    cells: &[LogicCell],
    before: &[Option<usize>],
) -> Result<Vec<usize>, NoMemory> {
    let mut levels = Levels {
        cells,
        before,
        found: vec![in alloc; 0; cells.len()]?,
    };
    for turn in 0..MOST_LEVELS {
        if !levels.rise() {
            break;
        }
    }
    let mut order = Vec::with_capacity(alloc, cells.len())?;
    for number in 0..cells.len() {
        order.push(number)?;
    }
    let found = levels.found;
    order.sort_by_key(|cell| found.get(*cell).copied().unwrap_or(0))?;
    Ok(order)
}
