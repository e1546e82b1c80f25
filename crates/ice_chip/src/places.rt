//! Where a switch row stands among groups whose rows are numbered on.
ghost use Rattle.std.specs.Prelude.{◌≡◌, ◌<◌, ◌≤◌, map, length, Some, slice_get};
ghost use Rattle.ice_chip.specs.Indices.{IsBorder};
ghost use Rattle.ice_chip.specs.IsRead.{AreNumbered};
ghost use Rattle.ice_chip.specs.Limits.{most_rows};
ghost use Rattle.ice_chip.specs.Listings.{rows_of};
ghost use Rattle.ice_chip.specs.Views.{row_view, group_view};

use crate::{Group, Row};

// How many groups begin with the row of this number or one before it, by halving.
fn begun(groups: &[Group], row: u32) -> usize
    ensures { IsBorder groups.now row result }
{
    let mut low = 0;
    let mut high = groups.len();
    while low < high {
        let middle = low + (high - low) / 2;
        if groups[middle].first.0 <= row {
            low = middle + 1;
        } else {
            high = middle;
        }
    }
    low
}

/// The number of the rows of these groups.
pub fn rows_count(groups: &[Group]) -> u32
    requires numbered { AreNumbered 0 (map group_view groups.now) }
    requires few { length (rows_of (map group_view groups.now)) ≤ most_rows }
    ensures { result ≡ length (rows_of (map group_view groups.now)) }
{
    let count = groups.len();
    if count == 0 {
        return 0;
    }
    let last = &groups[count - 1];
    last.first.0 + last.rows.len() as u32
}

/// The row of this number, with its group.
pub fn row_among(groups: &[Group], row: u32) -> (&Group, &Row)
    requires numbered { AreNumbered 0 (map group_view groups.now) }
    requires within { row < length (rows_of (map group_view groups.now)) }
    ensures { slice_get (rows_of (map group_view groups.now)) row
        ≡ Some (group_view result.0.now, row_view result.1.now) }
{
    let count = begun(groups, row);
    let group = &groups[count - 1];
    let place = (row - group.first.0) as usize;
    (group, &group.rows[place])
}
