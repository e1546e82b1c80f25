//! Points between places.

use ice_anneal_seats::Place;

/// A point, in parts of 256 of a column and of a row.
#[derive(Clone, Copy)]
pub struct Point {
    /// How far along the columns.
    pub column: u64,
    /// How far along the rows.
    pub row: u64,
}

impl Point {
    /// The corner where all begins.
    pub const ORIGIN: Point = Point { column: 0, row: 0 };

    /// The point of a place.
    pub fn of(place: Place) -> Point {
        Point {
            column: u64::from(place.column) * 256,
            row: u64::from(place.row) * 256,
        }
    }

    /// The sum of two.
    pub fn plus(self, other: Point) -> Point {
        Point {
            column: self.column.wrapping_add(other.column),
            row: self.row.wrapping_add(other.row),
        }
    }

    /// A sum without one of its points.
    pub fn without(self, part: Point) -> Point {
        Point {
            column: self.column.saturating_sub(part.column),
            row: self.row.saturating_sub(part.row),
        }
    }

    /// So many times a point.
    pub fn times(self, count: u64) -> Point {
        Point {
            column: self.column.wrapping_mul(count),
            row: self.row.wrapping_mul(count),
        }
    }

    /// The middle of so many points, of which this is the sum; of none, what it is.
    pub fn over(self, count: u64) -> Point {
        Point {
            column: self.column / count.max(1),
            row: self.row / count.max(1),
        }
    }

    /// How far it is to another along both axes together.
    pub fn distance(self, other: Point) -> u64 {
        let columns = self.column.abs_diff(other.column);
        columns.wrapping_add(self.row.abs_diff(other.row))
    }
}

/// A sum of points, each of which counts so often.
#[derive(Clone, Copy)]
pub struct Mean {
    sum: Point,
    weight: u64,
}

impl Mean {
    /// No points.
    pub fn none() -> Mean {
        Mean {
            sum: Point::ORIGIN,
            weight: 0,
        }
    }

    /// Adds a point that counts so often.
    pub fn add(&mut self, point: Point, weight: u64) {
        self.sum = self.sum.plus(point.times(weight));
        self.weight = self.weight.wrapping_add(weight);
    }

    /// The middle of the points, where there are any.
    pub fn middle(&self) -> Option<Point> {
        if self.weight == 0 {
            return None;
        }
        Some(self.sum.over(self.weight))
    }
}
