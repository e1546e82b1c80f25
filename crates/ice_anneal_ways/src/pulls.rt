//! Connections that want to be short, since long ways go through them.

use crate::delays::delay;
use ice_anneal_seats::Place;
use ice_base::NoMemory;
use std::alloc::Global;

/// How many connections of a cell are kept.
const MOST: usize = 8;

/// An end of a connection.
#[derive(Clone, Copy)]
pub enum End {
    /// A cell.
    Cell(usize),
    /// A pad, which stays at its place.
    Pad(Place),
}

/// A connection of a cell.
#[derive(Clone, Copy)]
pub struct Pull {
    /// The other end.
    pub end: End,
    /// What a tenth of a nanosecond of it costs, in parts of 256 of a tile.
    pub weight: u32,
}

impl Pull {
    /// By how much the cost grows where a cell goes from one place to another, and the other end stands at this place.
    pub fn growth(&self, end: Place, from: Place, to: Place) -> i64 {
        let longer = i64::from(delay(to, end)).wrapping_sub(i64::from(delay(from, end)));
        longer.wrapping_mul(i64::from(self.weight))
    }
}

/// The connections of each cell that want to be short, up to eight of each.
#[derive(Drop)]
pub struct Pulls {
    // Eight for each cell, of which so many are its.
    list: Vec<Pull>,
    counts: Vec<usize>,
    // Whether there are none at all.
    is_empty: bool,
}

impl Pulls {
    /// No connections, of so many cells.
    pub fn new(alloc: Global, cells: usize) -> Result<Pulls, NoMemory> {
        let none = Pull {
            end: End::Cell(0),
            weight: 0,
        };
        Ok(Pulls {
            list: vec![in alloc; none; cells.saturating_mul(MOST)]?,
            counts: vec![in alloc; 0; cells]?,
            is_empty: true,
        })
    }

    /// Forgets all connections.
    pub fn clear(&mut self) {
        self.is_empty = true;
        for count in &mut self.counts {
            *count = 0;
        }
    }

    /// Whether there are no connections.
    pub fn is_empty(&self) -> bool {
        self.is_empty
    }

    // Adds a connection to those of what may be a cell; beyond eight it is left out.
    fn add(&mut self, of: End, pull: Pull) {
        let End::Cell(cell) = of else {
            return;
        };
        let count = self.counts.get(cell).copied().unwrap_or(MOST);
        if count >= MOST {
            return;
        }
        let number = cell.saturating_mul(MOST).saturating_add(count);
        if let Some(free) = self.list.get_mut(number) {
            *free = pull;
        }
        if let Some(own) = self.counts.get_mut(cell) {
            *own = count.saturating_add(1);
        }
    }

    /// Adds a connection between two ends, to those of each that is a cell.
    pub fn connect(&mut self, start: End, end: End, weight: u32) {
        self.is_empty = false;
        self.add(start, Pull { end, weight });
        self.add(end, Pull { end: start, weight });
    }

    /// The connections of a cell.
    pub fn of(&self, cell: usize) -> &[Pull] {
        let count = self.counts.get(cell).copied().unwrap_or(0);
        if count == 0 {
            return &[];
        }
        let first = cell.saturating_mul(MOST);
        self.list
            .get(first..first.saturating_add(count))
            .unwrap_or(&[])
    }
}
