//! What moves, and what it does to the wires.

use crate::bundles::Bundles;
use crate::nets::CellNets;
use crate::signals::Signals;
use crate::units::{MoveUnit, Units};
use ice_anneal_seats::{Floor, Place, Seats};
use ice_anneal_ways::{End, Pulls};
use ice_cells::LogicCell;

/// Cells in clusters on sites.
#[derive(Drop)]
pub struct State<'a> {
    /// The cells of the design.
    pub cells: &'a [LogicCell],
    /// The sites.
    pub floor: Floor,
    /// Where clusters and cells stand.
    pub seats: Seats,
    /// Which clusters move together.
    pub units: Units,
    /// The nets.
    pub nets: CellNets,
    /// The nets of clusters.
    pub bundles: Bundles,
    /// What clusters read.
    pub signals: Signals,
    /// The connections that want to be short.
    pub pulls: Pulls,
    /// By how much the cost of these has grown, in parts of 256 of a tile.
    pub pulled: i64,
}

// Tiles in parts of 256.
fn in_parts(tiles: i64) -> i64 {
    tiles.wrapping_mul(256)
}

impl<'a> State<'a> {
    /// The place of an end of a net or a connection, where that is none of two cells.
    pub fn place_of_end(&self, end: End, cell: usize, other: usize) -> Option<Place> {
        match end {
            End::Pad(place) => Some(place),
            End::Cell(peer) if peer == cell || peer == other => None,
            End::Cell(peer) => Some(self.seats.place_of(self.seats.cluster_of(peer))),
        }
    }

    // By how much the cost grows of one cell's connections but for those to the other, where it goes from one place to another.
    fn pull_growth(&self, cell: usize, other: usize, from: Place, to: Place) -> i64 {
        let mut sum = 0i64;
        for pull in self.pulls.of(cell) {
            if let Some(end) = self.place_of_end(pull.end, cell, other) {
                sum = sum.wrapping_add(pull.growth(end, from, to));
            }
        }
        sum
    }

    // By how much the cost of connections grows where two cells change places, the first of which stands at the first place.
    fn pull_growth_of_cells(&self, one: usize, other: usize, from: Place, to: Place) -> i64 {
        if self.pulls.is_empty() {
            return 0;
        }
        self.pull_growth(one, other, from, to)
            .wrapping_add(self.pull_growth(other, one, to, from))
    }

    // What it costs where two cells change places, the first of which stands at the first place.
    fn growth_of_cells(&mut self, one: usize, other: usize, from: Place, to: Place) -> i64 {
        in_parts(self.nets.growth_of_cells(one, other, from, to)).wrapping_add(
            self.pull_growth_of_cells(one, other, from, to),
        )
    }

    // Whether a cluster reads few signals, or no more than it did, once a cell of another stands in the place of one of its.
    fn is_light(&mut self, cluster: usize, leaving: usize, coming: usize) -> bool {
        let slots = self.seats.cells_of(cluster);
        self.signals.is_light(slots, leaving, coming)
    }

    // Two cells change places.
    fn exchange_cells(&mut self, one: usize, other: usize, from: Place, to: Place) {
        self.nets.shift_cell(one, from, to);
        self.nets.shift_cell(other, to, from);
        self.seats.exchange(one, other);
    }

    /// Two cells of different clusters change places where that costs no more than this, in parts of 256 of a tile.
    pub fn try_cells(&mut self, one: usize, other: usize, spare: i64) {
        let (cluster, target) = (self.seats.cluster_of(one), self.seats.cluster_of(other));
        if cluster == target {
            return;
        }
        let (from, to) = (self.seats.place_of(cluster), self.seats.place_of(target));
        if self.growth_of_cells(one, other, from, to) <= spare
            && self.is_light(cluster, one, other)
            && self.is_light(target, other, one)
        {
            self.exchange_cells(one, other, from, to);
        }
    }

    /// A cell goes to a slot, and the cell that stands there to its own.
    pub fn move_cell(&mut self, cell: usize, slot: usize) {
        if let Some(other) = self.seats.cell_at(slot / 8, slot % 8) {
            let from = self.seats.place_of(self.seats.cluster_of(cell));
            let to = self.seats.place_of(slot / 8);
            self.exchange_cells(cell, other, from, to);
        }
    }

    // The place of the other end of a connection, where that is in none of two clusters.
    fn place_outside(&self, end: End, cluster: usize, other: Option<usize>) -> Option<Place> {
        match end {
            End::Pad(place) => Some(place),
            End::Cell(peer) => {
                let own = self.seats.cluster_of(peer);
                if own == cluster || other == Some(own) {
                    None
                } else {
                    Some(self.seats.place_of(own))
                }
            }
        }
    }

    // By how much the cost of what may be a cluster's connections grows, but for those within it and to another cluster.
    fn pull_growth_of_cluster(
        &self,
        cluster: Option<usize>,
        other: Option<usize>,
        from: Place,
        to: Place,
    ) -> i64 {
        let Some(cluster) = cluster else {
            return 0;
        };
        let mut sum = 0i64;
        for slot in self.seats.cells_of(cluster) {
            if let Some(cell) = *slot {
                for pull in self.pulls.of(cell) {
                    if let Some(end) = self.place_outside(pull.end, cluster, other) {
                        sum = sum.wrapping_add(pull.growth(end, from, to));
                    }
                }
            }
        }
        sum
    }

    // By how much the cost of connections grows where what stands on two sites changes places.
    fn pull_growth_of_sites(&self, one: usize, other: usize) -> i64 {
        if self.pulls.is_empty() {
            return 0;
        }
        let (from, to) = (self.floor.place_at(one), self.floor.place_at(other));
        let (here, there) = (self.seats.cluster_on(one), self.seats.cluster_on(other));
        self.pull_growth_of_cluster(here, there, from, to)
            .wrapping_add(self.pull_growth_of_cluster(there, here, to, from))
    }

    // What stands on two sites changes places.
    fn exchange_sites(&mut self, one: usize, other: usize) {
        self.pulled = self
            .pulled
            .wrapping_add(self.pull_growth_of_sites(one, other));
        let (from, to) = (self.floor.place_at(one), self.floor.place_at(other));
        let (here, there) = (self.seats.cluster_on(one), self.seats.cluster_on(other));
        self.nets.standing.shift(self.bundles.of(here), from, to);
        self.nets.standing.shift(self.bundles.of(there), to, from);
        self.seats.exchange_sites(one, other, from, to);
    }

    // What it costs where what stands on two sites changes places.
    fn growth_of_sites(&mut self, one: usize, other: usize) -> i64 {
        let (from, to) = (self.floor.place_at(one), self.floor.place_at(other));
        let going = self.bundles.of(self.seats.cluster_on(one));
        let coming = self.bundles.of(self.seats.cluster_on(other));
        let growth = self.nets.standing.growth_of(going, coming, from, to);
        in_parts(growth).wrapping_add(self.pull_growth_of_sites(one, other))
    }

    // Whether what stands on a site may go to one of the sites that a unit leaves: a cluster of no run may, and a run as a whole, where
    // it stands on sites to which the unit goes, and the unit leaves none of these.
    fn may_leave(&self, unit: MoveUnit, from: usize, target: usize, site: usize) -> bool {
        let Some(cluster) = self.seats.cluster_on(site) else {
            return true;
        };
        let other = self.units.of(cluster);
        if other.count == 1 || unit.holds(cluster) {
            return true;
        }
        let first = self.seats.site_of(other.first);
        from.abs_diff(target) >= unit.count
            && first >= target
            && first.saturating_add(other.count) <= target.saturating_add(unit.count)
    }

    // Whether a unit fits on the sites from one on: they are of one stretch, and what stands there may leave.
    fn fits(&self, unit: MoveUnit, from: usize, target: usize) -> bool {
        if from == target || unit.count > self.floor.room_from(target) {
            return false;
        }
        for k in 0..unit.count {
            if !self.may_leave(unit, from, target, target.saturating_add(k)) {
                return false;
            }
        }
        true
    }

    // Takes a unit from the sites from one on to those from another on, and what stands there to those that it leaves: its last cluster
    // first where it goes up, so that each finds on its site what is to leave it.
    fn relocate(&mut self, unit: MoveUnit, from: usize, to: usize) {
        for k in 0..unit.count {
            let j = if from < to { unit.count - 1 - k } else { k };
            self.exchange_sites(from.saturating_add(j), to.saturating_add(j));
        }
    }

    // What it has cost so far that units went from sites to others.
    fn cost(&self) -> i64 {
        in_parts(self.nets.standing.growth).wrapping_add(self.pulled)
    }

    /// Notes the nets of clusters, which stay so while units go from sites to others.
    pub fn note_bundles(&mut self) {
        self.bundles.note(&self.seats, &self.nets);
    }

    /// A unit goes to the sites from one on, where it fits there and that costs no more than this, in parts of 256 of a tile. Whether it went.
    pub fn try_unit(&mut self, unit: MoveUnit, target: usize, spare: i64) -> bool {
        let from = self.seats.site_of(unit.first);
        if !self.fits(unit, from, target) {
            return false;
        }
        if unit.count == 1 {
            let goes = self.growth_of_sites(from, target) <= spare;
            if goes {
                self.exchange_sites(from, target);
            }
            return goes;
        }
        let limit = self.cost().wrapping_add(spare);
        self.relocate(unit, from, target);
        if self.cost() > limit {
            self.relocate(unit, target, from);
            return false;
        }
        true
    }

    /// Whether a unit may stand on the sites from one on: it does, or it fits there.
    pub fn may_stand(&self, unit: MoveUnit, target: usize) -> bool {
        let from = self.seats.site_of(unit.first);
        from == target || self.fits(unit, from, target)
    }

    /// A unit goes to the sites from one on, on which it may stand.
    pub fn move_unit(&mut self, unit: MoveUnit, target: usize) {
        let from = self.seats.site_of(unit.first);
        if from != target {
            self.relocate(unit, from, target);
        }
    }
}
