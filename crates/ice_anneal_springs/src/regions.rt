//! Cells are spread over the sites: by halves of a chip, so that each half has cells in proportion to its sites.

use crate::point::Point;
use ice_anneal_seats::{Floor, Place};
use ice_base::NoMemory;
use std::alloc::Global;

/// How many regions there are at most: each has one of 64 times 64 places, or falls in two.
const MOST_REGIONS: usize = 2 * 64 * 64;

// A box of places.
#[derive(Clone, Copy)]
struct Area {
    low: Place,
    high: Place,
}

// An axis.
#[derive(Clone, Copy)]
enum Axis {
    Columns,
    Rows,
}

// The number in the middle of two, the lower one first.
fn middle(low: u8, high: u8) -> u8 {
    low.saturating_add(high.saturating_sub(low) / 2)
}

impl Area {
    // All places of a chip.
    fn whole(floor: &Floor) -> Area {
        let mut high = Place { column: 0, row: 0 };
        for site in 0..floor.tiles.len() {
            let place = floor.place_at(site);
            high.column = high.column.max(place.column);
            high.row = high.row.max(place.row);
        }
        Area {
            low: Place { column: 0, row: 0 },
            high,
        }
    }

    // Whether it is one place.
    fn is_place(&self) -> bool {
        self.low.column >= self.high.column && self.low.row >= self.high.row
    }

    // The axis along which it is longest.
    fn axis(&self) -> Axis {
        let columns = self.high.column.saturating_sub(self.low.column);
        if columns >= self.high.row.saturating_sub(self.low.row) {
            Axis::Columns
        } else {
            Axis::Rows
        }
    }

    // Both halves along an axis.
    fn halves(&self, axis: Axis) -> (Area, Area) {
        let (mut left, mut right) = (*self, *self);
        match axis {
            Axis::Columns => {
                let last = middle(self.low.column, self.high.column);
                left.high.column = last;
                right.low.column = last.saturating_add(1);
            }
            Axis::Rows => {
                let last = middle(self.low.row, self.high.row);
                left.high.row = last;
                right.low.row = last.saturating_add(1);
            }
        }
        (left, right)
    }

    // Whether a place is in it.
    fn holds(&self, place: Place) -> bool {
        place.column >= self.low.column
            && place.column <= self.high.column
            && place.row >= self.low.row
            && place.row <= self.high.row
    }

    // How many sites it has.
    fn sites(&self, floor: &Floor) -> usize {
        let mut count = 0usize;
        for site in 0..floor.tiles.len() {
            if self.holds(floor.place_at(site)) {
                count = count.saturating_add(1);
            }
        }
        count
    }
}

// A box, and the cells that are to stand in it.
#[derive(Drop)]
struct Region {
    within: Area,
    cells: Vec<usize>,
}

// How far along an axis a cell stands.
fn along(points: &[Point], cell: usize, axis: Axis) -> u64 {
    let point = points.get(cell).copied().unwrap_or(Point::ORIGIN);
    match axis {
        Axis::Columns => point.column,
        Axis::Rows => point.row,
    }
}

// How many of so many cells the first half gets, where the halves have so many sites.
fn share(cells: usize, first: usize, second: usize) -> usize {
    let sites = first.saturating_add(second);
    cells.saturating_mul(first) / sites.max(1)
}

impl Region {
    // Both halves, with the cells that stand first in the first.
    fn split(
        self,
        alloc: Global,
        floor: &Floor,
        points: &[Point],
    ) -> Result<(Region, Region), NoMemory> {
        let axis = self.within.axis();
        let (low, high) = self.within.halves(axis);
        let mut cells = self.cells;
        cells.sort_by_key(|cell| along(points, *cell, axis))?;
        let count = share(cells.len(), low.sites(floor), high.sites(floor));
        let mut first = Vec::new(alloc);
        let mut second = Vec::new(alloc);
        for (number, cell) in cells.iter().enumerate() {
            if number < count {
                first.push(*cell)?;
            } else {
                second.push(*cell)?;
            }
        }
        let first = Region {
            within: low,
            cells: first,
        };
        let second = Region {
            within: high,
            cells: second,
        };
        Ok((first, second))
    }
}

// The cells of a list are to stand at a place.
fn want(wanted: &mut Vec<Place>, cells: &[usize], place: Place) {
    for cell in cells {
        if let Some(own) = wanted.get_mut(*cell) {
            *own = place;
        }
    }
}

// All cells, anywhere on the chip.
fn whole(alloc: Global, floor: &Floor, cells: usize) -> Result<Region, NoMemory> {
    let mut all = Vec::with_capacity(alloc, cells)?;
    for cell in 0..cells {
        all.push(cell)?;
    }
    Ok(Region {
        within: Area::whole(floor),
        cells: all,
    })
}

/// Notes a place for each cell, by where all stand: as many at each site, in the order of columns and of rows.
pub fn spread(
    alloc: Global,
    floor: &Floor,
    points: &[Point],
    wanted: &mut Vec<Place>,
) -> Result<(), NoMemory> {
    let mut regions = Vec::new(alloc);
    regions.push(whole(alloc, floor, points.len())?)?;
    for turn in 0..MOST_REGIONS {
        let Some(region) = regions.pop() else {
            break;
        };
        if region.within.is_place() || region.cells.is_empty() {
            want(wanted, region.cells.as_slice(), region.within.low);
        } else {
            let (first, second) = region.split(alloc, floor, points)?;
            regions.push(first)?;
            regions.push(second)?;
        }
    }
    Ok(())
}
