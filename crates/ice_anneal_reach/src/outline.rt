//! How far nets reach over the places of a chip.

use crate::extent::Extent;
use crate::spread::Spread;
use ice_anneal_seats::Place;

/// From where to where the nodes of a net stand.
#[derive(Clone, Copy)]
pub struct Outline {
    columns: Extent,
    rows: Extent,
}

impl Outline {
    /// The net's length: half the perimeter of the box of its nodes.
    pub fn length(&self) -> i64 {
        self.columns.reach().wrapping_add(self.rows.reach())
    }

    /// By how much the length grows where so many nodes go from one place to another.
    pub fn growth(&self, from: Place, to: Place, nodes: u8) -> i64 {
        let columns = self.columns.growth(from.column, to.column, nodes);
        columns.wrapping_add(self.rows.growth(from.row, to.row, nodes))
    }

    /// Two corners of the box of all nodes but one that stands at this place, the lower one first; where there is no other, none.
    pub fn box_without(&self, place: Place) -> Option<(Place, Place)> {
        let (left, right) = self.columns.ends_without(place.column)?;
        let (low, high) = self.rows.ends_without(place.row)?;
        let first = Place {
            column: left,
            row: low,
        };
        let last = Place {
            column: right,
            row: high,
        };
        Some((first, last))
    }
}

/// Where the nodes of a net stand.
#[derive(Clone, Copy)]
pub struct NetPlaces {
    columns: Spread,
    rows: Spread,
}

impl NetPlaces {
    /// Nowhere.
    pub fn empty() -> NetPlaces {
        NetPlaces {
            columns: Spread::empty(),
            rows: Spread::empty(),
        }
    }

    /// From where to where they stand.
    pub(crate) fn outline(&self) -> Outline {
        Outline {
            columns: self.columns.extent(),
            rows: self.rows.extent(),
        }
    }

    /// One more node stands at a place.
    pub fn add(&mut self, place: Place) {
        self.columns.add(place.column, 1);
        self.rows.add(place.row, 1);
    }

    /// So many nodes go from one place to another. From where to where they stand then, where that was this outline before.
    pub(crate) fn shift(&mut self, from: Place, to: Place, nodes: u8, outline: Outline) -> Outline {
        let mut outline = outline;
        if from.column != to.column {
            self.columns.shift(from.column, to.column, nodes);
            outline.columns = self.columns.extent();
        }
        if from.row != to.row {
            self.rows.shift(from.row, to.row, nodes);
            outline.rows = self.rows.extent();
        }
        outline
    }
}
