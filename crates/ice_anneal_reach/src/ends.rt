//! Where nets end, and the places amid them.

use ice_anneal_seats::{Place, below};
use rand_pcg::Pcg32;

// How many nets end at each place along an axis, and how many ends there are.
#[derive(Clone, Copy)]
struct Along {
    ends: [u8; 64],
    count: usize,
}

impl Along {
    // Adds an end.
    fn add(&mut self, end: u8) {
        if let Some(own) = self.ends.get_mut(usize::from(end)) {
            *own = own.saturating_add(1);
            self.count = self.count.saturating_add(1);
        }
    }

    // The two in the middle, where there are any: the last of the first half, and the first of the second half.
    fn middle(&self) -> Option<(u8, u8)> {
        let half = self.count / 2;
        if half == 0 {
            return None;
        }
        let mut seen = 0usize;
        let mut low = None;
        for place in 0..64u8 {
            let ends = self.ends.get(usize::from(place)).copied()?;
            seen = seen.saturating_add(usize::from(ends));
            if seen >= half && low.is_none() {
                low = Some(place);
            }
            if seen > half {
                return Some((low?, place));
            }
        }
        None
    }
}

/// Two corners of a box of places, the lower one first.
#[derive(Clone, Copy)]
pub struct Middle {
    /// The first column and row.
    pub low: Place,
    /// The last column and row.
    pub high: Place,
}

// A number that is drawn from those from one to another.
fn between(low: u8, high: u8, words: &mut Pcg32) -> u8 {
    let count = usize::from(high.saturating_sub(low)) + 1;
    let number = usize::from(low).saturating_add(below(words, count));
    number.min(63) as u8
}

impl Middle {
    /// A place in the box.
    pub fn draw(&self, words: &mut Pcg32) -> Place {
        let column = between(self.low.column, self.high.column, words);
        let row = between(self.low.row, self.high.row, words);
        Place { column, row }
    }
}

/// The ends of nets along the columns and along the rows.
#[derive(Clone, Copy)]
pub struct Ends {
    columns: Along,
    rows: Along,
}

impl Ends {
    /// No ends.
    pub fn none() -> Ends {
        let along = Along {
            ends: [0; 64],
            count: 0,
        };
        Ends {
            columns: along,
            rows: along,
        }
    }

    /// Adds both ends of a net along each axis: the corners of the box of its nodes.
    pub fn add(&mut self, low: Place, high: Place) {
        self.columns.add(low.column);
        self.columns.add(high.column);
        self.rows.add(low.row);
        self.rows.add(high.row);
    }

    /// The places from which the nets are as near as from any; where there are no nets, none.
    pub fn middle(&self) -> Option<Middle> {
        let (left, right) = self.columns.middle()?;
        let (low, high) = self.rows.middle()?;
        Some(Middle {
            low: Place {
                column: left,
                row: low,
            },
            high: Place {
                column: right,
                row: high,
            },
        })
    }
}
