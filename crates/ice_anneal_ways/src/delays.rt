//! About how long signals take, in tenths of a nanosecond: enough to tell one way from another.

use ice_anneal_seats::Place;

/// From the inputs of a table to what it gives, or to the flip-flop behind it.
pub const THROUGH_TABLE: u32 = 4;

/// From an input into the carry of its cell.
pub const INTO_CARRY: u32 = 3;

/// From one carry to the next.
pub const ALONG_CARRY: u32 = 1;

/// From what comes into the carry of a cell to what its table gives.
pub const FROM_CARRY: u32 = 6;

/// From the clock to what a flip-flop gives.
pub const FROM_FLOP: u32 = 5;

/// From a pad to the wires.
pub const FROM_PAD: u32 = 5;

/// From the wires to a pad.
pub const INTO_PAD: u32 = 4;

/// From the wires to what enables, sets or resets a flip-flop.
pub const INTO_CONTROL: u32 = 2;

// Between tiles that touch, which are wired to each other.
const BESIDE: u32 = 6;

// Between others, but for what each column and each row takes.
const APART: u32 = 11;

/// From a place to a place.
pub fn delay(from: Place, to: Place) -> u32 {
    let columns = u32::from(from.column.abs_diff(to.column));
    let rows = u32::from(from.row.abs_diff(to.row));
    if columns <= 1 && rows <= 1 {
        BESIDE
    } else {
        APART + columns + rows
    }
}
