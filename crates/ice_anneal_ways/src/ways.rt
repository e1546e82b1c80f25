//! The ways of signals from flip-flops and pads to flip-flops and pads, by where cells stand: how long the longest is, and the longest
//! through each connection.

use crate::delays::{
    ALONG_CARRY, FROM_CARRY, FROM_FLOP, FROM_PAD, INTO_CARRY, INTO_CONTROL, INTO_PAD,
    THROUGH_TABLE, delay,
};
use crate::order::{before_of, order_of};
use crate::pulls::{End, Pulls};
use ice_anneal_seats::{Grid, Place, Seats};
use ice_base::NoMemory;
use ice_cells::{Control, Design, LogicCell, Root};
use ice_pads::Pads;
use std::alloc::Global;

/// What a tenth of a nanosecond of the longest way costs, in parts of 256 of a tile.
const WEIGHT: u32 = 56;

/// The least share of the longest way, in parts of 1024, of a way that costs something.
const LEAST_SHARE: u32 = 870;

// A time for each cell, in tenths of a nanosecond.
#[derive(Drop)]
struct Times {
    list: Vec<u32>,
}

impl Times {
    // 0 for each of so many cells.
    fn new(alloc: Global, cells: usize) -> Result<Times, NoMemory> {
        Ok(Times {
            list: vec![in alloc; 0; cells]?,
        })
    }

    // The time of a cell.
    fn of(&self, cell: usize) -> u32 {
        self.list.get(cell).copied().unwrap_or(0)
    }

    // A cell's time is at least this one.
    fn raise(&mut self, cell: usize, time: u32) {
        if let Some(own) = self.list.get_mut(cell) {
            *own = time.max(*own);
        }
    }

    // 0 for each.
    fn clear(&mut self) {
        for own in &mut self.list {
            *own = 0;
        }
    }
}

// A pad that a root drives or enables.
#[derive(Clone, Copy)]
struct DrivenPad {
    root: Root,
    place: Place,
}

// Where a connection begins, and when what it carries is there.
#[derive(Clone, Copy)]
struct Start {
    end: End,
    place: Place,
    time: u32,
}

// Where a connection ends, and how long the longest way goes on behind it.
#[derive(Clone, Copy)]
struct Finish {
    end: End,
    place: Place,
    left: u32,
}

/// What is known of the ways through a design.
#[derive(Drop)]
pub struct Ways {
    // The cells, each behind those that it waits for, and the one before each in its run.
    order: Vec<usize>,
    before: Vec<Option<usize>>,
    // The place of each port's pad, and the pads that are driven.
    ports: Vec<Place>,
    driven: Vec<DrivenPad>,
    // When what a cell gives is there, and what it carries on.
    given: Times,
    carried: Times,
    // How long the longest way goes on from there.
    given_left: Times,
    carried_left: Times,
    // The longest way, at least 1.
    longest: u32,
}

// The place of each port's pad.
fn places_of(alloc: Global, grid: Grid, pads: &Pads) -> Result<Vec<Place>, NoMemory> {
    let mut places = Vec::with_capacity(alloc, pads.ports().len())?;
    for pad in pads.ports() {
        places.push(grid.place_of(pad.tile))?;
    }
    Ok(places)
}

// Adds a pad that may be driven.
fn add_driven(
    driven: &mut Vec<DrivenPad>,
    root: Option<Root>,
    place: Option<Place>,
) -> Result<(), NoMemory> {
    if let (Some(root), Some(place)) = (root, place) {
        driven.push(DrivenPad { root, place })?;
    }
    Ok(())
}

// The pads that are driven.
fn driven_of(alloc: Global, design: &Design, ports: &[Place]) -> Result<Vec<DrivenPad>, NoMemory> {
    let mut driven = Vec::new(alloc);
    for (port, pad) in design.pads().iter().enumerate() {
        let place = ports.get(port).copied();
        add_driven(&mut driven, pad.drive, place)?;
        add_driven(&mut driven, pad.enable, place)?;
    }
    Ok(driven)
}

// Whether the carry of a cell depends on this input.
fn is_carried(input: usize) -> bool {
    input == 1 || input == 2
}

// What a tenth of a nanosecond of a connection costs through which the longest way takes this time: by the sixteenth power of its share of the
// longest of all, and nothing where the share is small.
fn weight_of(way: u32, longest: u32) -> u32 {
    let mut share = (way.saturating_mul(1024) / longest.max(1)).min(1024);
    if share < LEAST_SHARE {
        return 0;
    }
    for turn in 0..4u32 {
        share = share.saturating_mul(share) / 1024;
    }
    share.saturating_mul(WEIGHT) / 1024
}

impl Ways {
    /// The ways of a design, before any is measured.
    pub fn new(alloc: Global, grid: Grid, design: &Design, pads: &Pads) -> Result<Ways, NoMemory> {
        let cells = design.cells();
        let before = before_of(alloc, cells.len(), design.runs())?;
        let ports = places_of(alloc, grid, pads)?;
        Ok(Ways {
            order: order_of(alloc, cells, &before)?,
            before,
            driven: driven_of(alloc, design, &ports)?,
            ports,
            given: Times::new(alloc, cells.len())?,
            carried: Times::new(alloc, cells.len())?,
            given_left: Times::new(alloc, cells.len())?,
            carried_left: Times::new(alloc, cells.len())?,
            longest: 1,
        })
    }

    // The cell of this number in the order, and its number in the design.
    fn cell_at<'a>(&self, cells: &'a [LogicCell], k: usize) -> Option<(usize, &'a LogicCell)> {
        let number = self.order.get(k).copied()?;
        Some((number, cells.get(number)?))
    }

    // Where a root is. Globals have wires of their own, and carries stay in their runs.
    fn start_of(&self, seats: &Seats, root: Option<Root>) -> Option<Start> {
        match root? {
            Root::PadIn(port) => {
                let place = self.ports.get(port as usize).copied()?;
                Some(Start {
                    end: End::Pad(place),
                    place,
                    time: FROM_PAD,
                })
            }
            Root::CellOut(cell) => {
                let cell = cell as usize;
                Some(Start {
                    end: End::Cell(cell),
                    place: seats.place_of(seats.cluster_of(cell)),
                    time: self.given.of(cell),
                })
            }
            Root::GlobalOut(_) | Root::CarryOut(_) => None,
        }
    }

    // When what a root gives is there at a place.
    fn arrival(&self, seats: &Seats, root: Option<Root>, place: Place) -> u32 {
        match self.start_of(seats, root) {
            Some(start) => start.time.saturating_add(delay(start.place, place)),
            None => 0,
        }
    }

    // When what is carried into a cell is there.
    fn carry_into(&self, cell: usize) -> u32 {
        match self.before.get(cell).copied().flatten() {
            Some(other) => self.carried.of(other),
            None => 0,
        }
    }

    // Measures when what a cell gives and carries on is there.
    fn pass(&mut self, seats: &Seats, number: usize, cell: &LogicCell) {
        let place = seats.place_of(seats.cluster_of(number));
        let carry = self.carry_into(number);
        let mut given = 0;
        let mut carried = carry.saturating_add(ALONG_CARRY);
        for (j, input) in cell.ins.iter().enumerate() {
            if j == 3 && cell.carry_to_in3 {
                given = carry.saturating_add(FROM_CARRY).max(given);
            } else {
                let arrival = self.arrival(seats, *input, place);
                given = arrival.saturating_add(THROUGH_TABLE).max(given);
                if is_carried(j) {
                    carried = arrival.saturating_add(INTO_CARRY).max(carried);
                }
            }
        }
        self.longest = given.max(self.longest);
        if cell.carry {
            self.carried.raise(number, carried);
        }
        if cell.flop.is_none() {
            self.given.raise(number, given);
        }
    }

    // Measures when all is there.
    fn pass_all(&mut self, seats: &Seats, cells: &[LogicCell]) {
        self.longest = 1;
        self.given.clear();
        self.carried.clear();
        for (number, cell) in cells.iter().enumerate() {
            if cell.flop.is_some() {
                self.given.raise(number, FROM_FLOP);
            }
        }
        for k in 0..self.order.len() {
            if let Some((number, cell)) = self.cell_at(cells, k) {
                self.pass(seats, number, cell);
            }
        }
        for k in 0..self.driven.len() {
            if let Some(pad) = self.driven.get(k).copied() {
                let arrival = self.arrival(seats, Some(pad.root), pad.place);
                self.longest = arrival.saturating_add(INTO_PAD).max(self.longest);
            }
        }
    }

    // Notes how long ways go on from a root that leads to this finish. What the connection between them costs.
    fn lead(&mut self, start: Start, finish: Finish) -> u32 {
        let left = delay(start.place, finish.place).saturating_add(finish.left);
        if let End::Cell(cell) = start.end {
            self.given_left.raise(cell, left);
        }
        weight_of(start.time.saturating_add(left), self.longest)
    }

    // Adds the connection from a root, where there is one, to a finish.
    fn connect(&mut self, seats: &Seats, pulls: &mut Pulls, root: Option<Root>, finish: Finish) {
        if let Some(start) = self.start_of(seats, root) {
            let weight = self.lead(start, finish);
            if weight > 0 {
                pulls.connect(start.end, finish.end, weight);
            }
        }
    }

    // Adds the connections to the pads that are driven.
    fn connect_pads(&mut self, seats: &Seats, pulls: &mut Pulls) {
        for k in 0..self.driven.len() {
            if let Some(pad) = self.driven.get(k).copied() {
                let finish = Finish {
                    end: End::Pad(pad.place),
                    place: pad.place,
                    left: INTO_PAD,
                };
                self.connect(seats, pulls, Some(pad.root), finish);
            }
        }
    }
}

impl Ways {
    // Adds the connections of what enables, sets and resets a flip-flop.
    fn connect_control(
        &mut self,
        seats: &Seats,
        pulls: &mut Pulls,
        number: usize,
        control: &Control,
    ) {
        let finish = Finish {
            end: End::Cell(number),
            place: seats.place_of(seats.cluster_of(number)),
            left: INTO_CONTROL,
        };
        self.connect(seats, pulls, control.enable, finish);
        self.connect(seats, pulls, control.reset, finish);
    }

    // How long the longest way goes on from the table of a cell: nowhere where a flip-flop takes what it gives.
    fn left_of_table(&self, number: usize, cell: &LogicCell) -> u32 {
        if cell.flop.is_some() {
            0
        } else {
            self.given_left.of(number)
        }
    }

    // Notes how long ways go on from the carry of the cell before a cell.
    fn lead_carry(&mut self, number: usize, cell: &LogicCell) {
        let table_left = self.left_of_table(number, cell);
        let carry_left = self.carried_left.of(number);
        if let Some(other) = self.before.get(number).copied().flatten() {
            if cell.carry_to_in3 {
                let left = table_left.saturating_add(FROM_CARRY);
                self.carried_left.raise(other, left);
            }
            if cell.carry {
                let left = carry_left.saturating_add(ALONG_CARRY);
                self.carried_left.raise(other, left);
            }
        }
    }

    // How long the longest way goes on from an input of a cell.
    fn left_of_input(&self, number: usize, cell: &LogicCell, input: usize) -> u32 {
        let left = self
            .left_of_table(number, cell)
            .saturating_add(THROUGH_TABLE);
        if cell.carry && is_carried(input) {
            let carry_left = self.carried_left.of(number);
            carry_left.saturating_add(INTO_CARRY).max(left)
        } else {
            left
        }
    }

    // Adds the connections to the inputs of a cell.
    fn connect_cell(&mut self, seats: &Seats, pulls: &mut Pulls, number: usize, cell: &LogicCell) {
        let place = seats.place_of(seats.cluster_of(number));
        for (input, root) in cell.ins.iter().enumerate() {
            if input < 3 || !cell.carry_to_in3 {
                let finish = Finish {
                    end: End::Cell(number),
                    place,
                    left: self.left_of_input(number, cell, input),
                };
                self.connect(seats, pulls, *root, finish);
            }
        }
        self.lead_carry(number, cell);
    }

    /// Measures all ways, and finds the connections that want to be short.
    pub fn find_pulls(&mut self, seats: &Seats, cells: &[LogicCell], pulls: &mut Pulls) {
        self.pass_all(seats, cells);
        pulls.clear();
        self.given_left.clear();
        self.carried_left.clear();
        self.connect_pads(seats, pulls);
        for (number, cell) in cells.iter().enumerate() {
            if let Some((control, _)) = &cell.flop {
                self.connect_control(seats, pulls, number, control);
            }
        }
        for k in (0..self.order.len()).rev() {
            if let Some((number, cell)) = self.cell_at(cells, k) {
                self.connect_cell(seats, pulls, number, cell);
            }
        }
    }
}
