//! Cells on springs.

use crate::nodes::NodeLists;
use crate::point::{Mean, Point};
use crate::regions::spread;
use ice_anneal_reach::TouchLists;
use ice_anneal_seats::{Floor, Place, Seats};
use ice_anneal_ways::End;
use ice_base::NoMemory;
use std::alloc::Global;

/// How often each cell goes to where its nets draw it, before all are spread for the first time.
const FIRST_SWEEPS: u64 = 100;

/// How often the cells are spread. Each time they are drawn harder to where they were spread.
const ROUNDS: u64 = 8;

/// How often each cell goes to where its nets and its wanted place draw it, after each of these.
const SWEEPS: u64 = 10;

/// How many nodes a net has at most that draws its cells. A larger one draws all of them to the same place.
const MOST_NODES: usize = 64;

/// How many times as hard a net draws as a wanted place does in the first round.
const NET_WEIGHT: u64 = 16;

// Where cells stand, where they are to stand, and the sum of where the nodes of each net stand.
#[derive(Drop)]
struct Springs {
    points: Vec<Point>,
    wanted: Vec<Place>,
    sums: Vec<Point>,
}

impl Springs {
    // The cells as they stand.
    fn new(alloc: Global, seats: &Seats, cells: usize, nets: usize) -> Result<Springs, NoMemory> {
        let mut springs = Springs {
            points: Vec::with_capacity(alloc, cells)?,
            wanted: Vec::with_capacity(alloc, cells)?,
            sums: vec![in alloc; Point::ORIGIN; nets]?,
        };
        for cell in 0..cells {
            let place = seats.place_of(seats.cluster_of(cell));
            springs.points.push(Point::of(place))?;
            springs.wanted.push(place)?;
        }
        Ok(springs)
    }

    // Where a cell stands.
    fn point_of(&self, cell: usize) -> Point {
        self.points.get(cell).copied().unwrap_or(Point::ORIGIN)
    }

    // The sum of where these nodes stand.
    fn sum_of(&self, nodes: &[End]) -> Point {
        let mut sum = Point::ORIGIN;
        for node in nodes {
            let point = match *node {
                End::Cell(cell) => self.point_of(cell),
                End::Pad(place) => Point::of(place),
            };
            sum = sum.plus(point);
        }
        sum
    }

    // Notes the sums of all nets.
    fn add_up(&mut self, nodes: &NodeLists) {
        for net in 0..self.sums.len() {
            let sum = self.sum_of(nodes.of(net));
            if let Some(own) = self.sums.get_mut(net) {
                *own = sum;
            }
        }
    }

    // The middle of the other nodes of a net of a cell that stands at a point, where it has some, and not too many.
    fn middle_of(&self, nodes: &NodeLists, net: usize, own: Point) -> Option<Point> {
        let others = nodes.of(net).len().checked_sub(1)?;
        if others == 0 || others >= MOST_NODES {
            return None;
        }
        let sum = self.sums.get(net).copied()?;
        Some(sum.without(own).over(others as u64))
    }

    // Where a cell's nets draw it, and so hard the place that is wanted for it.
    fn goal_of(
        &self,
        nodes: &NodeLists,
        touching: &TouchLists,
        cell: usize,
        hold: u64,
    ) -> Option<Point> {
        let own = self.points.get(cell).copied()?;
        let mut drawn = Mean::none();
        drawn.add(Point::of(self.wanted.get(cell).copied()?), hold);
        for touch in touching.of(cell) {
            if let Some(middle) = self.middle_of(nodes, touch.net as usize, own) {
                drawn.add(middle, NET_WEIGHT);
            }
        }
        drawn.middle()
    }

    // Each cell goes to where it is drawn.
    fn sweep(&mut self, nodes: &NodeLists, touching: &TouchLists, hold: u64) {
        self.add_up(nodes);
        for cell in 0..self.points.len() {
            if let Some(goal) = self.goal_of(nodes, touching, cell, hold) {
                if let Some(own) = self.points.get_mut(cell) {
                    *own = goal;
                }
            }
        }
    }

    // The same so many times.
    fn settle(&mut self, nodes: &NodeLists, touching: &TouchLists, hold: u64, sweeps: u64) {
        for turn in 0..sweeps {
            self.sweep(nodes, touching, hold);
        }
    }
}

/// A place for each of so many cells, with few at each site, by which nets are short. It fails for want of memory alone.
pub fn wanted_places(
    alloc: Global,
    floor: &Floor,
    seats: &Seats,
    cells: usize,
    nodes: &NodeLists,
    touching: &TouchLists,
) -> Result<Vec<Place>, NoMemory> {
    let mut springs = Springs::new(alloc, seats, cells, nodes.spans.len())?;
    springs.settle(nodes, touching, 0, FIRST_SWEEPS);
    for round in 0..ROUNDS {
        spread(alloc, floor, springs.points.as_slice(), &mut springs.wanted)?;
        springs.settle(nodes, touching, round + 1, SWEEPS);
    }
    spread(alloc, floor, springs.points.as_slice(), &mut springs.wanted)?;
    Ok(springs.wanted)
}
