//! Tries at random, of which fewer and fewer that make the wires longer are kept.

use crate::beginning::begin;
use crate::middles::Middles;
use crate::schedule::{Schedule, Step, TURNS};
use ice_anneal_moves::{MoveUnit, Mover, Movers, State};
use ice_anneal_reach::Middle;
use ice_anneal_seats::{below, spare};
use ice_anneal_ways::Ways;
use ice_base::NoMemory;
use rand_pcg::Pcg32;
use std::alloc::Global;

/// Cells that change places within clusters, and units on sites.
#[derive(Drop)]
pub struct Search<'a> {
    /// The cells that may move.
    pub movers: Movers,
    /// Where all stands.
    pub state: State<'a>,
    /// What is known of the ways through the design.
    pub ways: Ways,
    /// The places amid nets.
    pub middles: Middles,
    /// Whether all tries with units were refused at the last turn.
    pub is_still: bool,
}

impl<'a> Search<'a> {
    // A site beside a node of one of a cell's nets, where one is found.
    fn site_near(&self, cell: usize, words: &mut Pcg32) -> Option<usize> {
        let nets = self.state.nets.of(cell);
        let touch = nets.get(below(words, nets.len()))?;
        let nodes = self.state.nets.nodes_of(touch.net);
        let node = nodes.get(below(words, nodes.len()))?;
        let place = self.state.place_of_end(*node, cell, cell)?;
        self.state.floor.site_beside(place, 1, words)
    }

    // A site beside a place amid nets, where one is found.
    fn site_amid(&self, middle: Option<Middle>, words: &mut Pcg32) -> Option<usize> {
        let place = middle?.draw(words);
        self.state.floor.site_beside(place, 1, words)
    }

    // A site at most so many columns and rows away from a cluster, where one is found.
    fn site_around(&self, cluster: usize, reach: u8, words: &mut Pcg32) -> Option<usize> {
        let place = self.state.seats.place_of(cluster);
        self.state.floor.site_beside(place, reach, words)
    }

    // A cell of a class on a site, where one is found.
    fn cell_on(&self, mover: Mover, site: usize, words: &mut Pcg32) -> Option<usize> {
        let cluster = self.state.seats.cluster_on(site)?;
        let cell = self.state.seats.cell_at(cluster, below(words, 8))?;
        if self.movers.is_like(mover, cell) {
            Some(cell)
        } else {
            None
        }
    }

    // A cell of the same class: one of all, one amid the nets, one beside a net, or one around the cell.
    fn partner_of(&self, mover: Mover, reach: u8, words: &mut Pcg32) -> Option<usize> {
        let kind = below(words, 10);
        if kind < 2 {
            let number = mover.first.saturating_add(below(words, mover.count));
            return Some(self.movers.list.get(number)?.cell);
        }
        let site = if kind < 5 {
            self.site_amid(self.middles.of_cell(mover.cell), words)?
        } else if kind < 7 {
            self.site_near(mover.cell, words)?
        } else {
            self.site_around(self.state.seats.cluster_of(mover.cell), reach, words)?
        };
        self.cell_on(mover, site, words)
    }

    // A try with two cells of one class.
    fn try_cells(&mut self, heat: u64, reach: u8, words: &mut Pcg32) {
        let number = below(words, self.movers.list.len());
        if let Some(mover) = self.movers.list.get(number).copied() {
            if let Some(other) = self.partner_of(mover, reach, words) {
                self.state.try_cells(mover.cell, other, spare(heat, words));
            }
        }
    }

    // A site for a unit: with one of its clusters amid its nets or beside one of them, or around it.
    fn target_of(&self, unit: MoveUnit, reach: u8, words: &mut Pcg32) -> Option<usize> {
        let kind = below(words, 10);
        if kind < 3 {
            return self.site_around(unit.first, reach, words);
        }
        let number = below(words, unit.count);
        let cluster = unit.first.saturating_add(number);
        let site = if kind < 7 {
            self.site_amid(self.middles.of_cluster(cluster), words)?
        } else {
            let cell = self.state.seats.cell_at(cluster, below(words, 8))?;
            self.site_near(cell, words)?
        };
        site.checked_sub(number)
    }

    // A try with a unit. Whether it is kept.
    fn try_unit(&mut self, heat: u64, reach: u8, words: &mut Pcg32) -> bool {
        let number = below(words, self.state.units.list.len());
        let Some(unit) = self.state.units.list.get(number).copied() else {
            return false;
        };
        let Some(target) = self.target_of(unit, reach, words) else {
            return false;
        };
        self.state.try_unit(unit, target, spare(heat, words))
    }

    // So many tries with cells at one heat.
    fn shake_cells(&mut self, tries: u64, heat: u64, reach: u8, words: &mut Pcg32) {
        for left in 0..tries {
            self.try_cells(heat, reach, words);
        }
    }

    // So many tries with units at one heat. Whether all are refused.
    fn shake_units(&mut self, tries: u64, heat: u64, reach: u8, words: &mut Pcg32) -> bool {
        let mut is_still = true;
        for left in 0..tries {
            if self.try_unit(heat, reach, words) {
                is_still = false;
            }
        }
        is_still
    }

    // Measures the ways, and finds the connections that want to be short.
    fn find_pulls(&mut self) {
        let state = &mut self.state;
        self.ways
            .find_pulls(&state.seats, state.cells, &mut state.pulls);
    }

    // The tries of a step, cells and units by turns.
    fn step(&mut self, schedule: Schedule, step: Step, words: &mut Pcg32) {
        let extent = self.state.floor.extent;
        let reach = step.reach(extent);
        if step.pulls() {
            self.find_pulls();
        }
        for turn in 0..TURNS {
            self.middles.note(&self.state);
            self.shake_cells(schedule.cell_tries(), step.cell_heat(), reach, words);
            self.state.note_bundles();
            self.is_still = self.shake_units(
                schedule.unit_tries(self.is_still),
                step.unit_heat(extent),
                reach.max(2),
                words,
            );
        }
    }

    // How many steps and tries there are.
    fn schedule(&self) -> Schedule {
        Schedule {
            cells: self.state.cells.len() as u64,
            movers: self.movers.list.len() as u64,
            units: self.state.units.list.len() as u64,
        }
    }

    /// Puts all where springs draw it, unless the design is small. It fails for want of memory alone.
    pub fn begin(&mut self, alloc: Global) -> Result<(), NoMemory> {
        if self.schedule().has_springs() {
            begin(alloc, &mut self.state, &self.movers)?;
        }
        Ok(())
    }

    /// Tries at a falling heat, and some when all is cold. Their number is fixed before the first.
    pub fn anneal(&mut self, words: &mut Pcg32) {
        let schedule = self.schedule();
        let steps = schedule.steps();
        for step in 0..steps {
            self.step(schedule, Step { left: steps - step }, words);
        }
        self.shake_cells(schedule.last_tries(), 0, 1, words);
    }
}
