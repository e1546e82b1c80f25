//! Rows that are the only ones of their bundle that are on.
ghost use Rattle.std.specs.Prelude.{◌≡◌};
ghost use Rattle.ice_chip.specs.Views.{row_view, group_view};
ghost use Rattle.ice_bits_rows.specs.Sound.{rows_on, sets, is_one};
ghost use Rattle.ice_bits_rows.specs.Lists.{views};
ghost use Rattle.ice_bits_rows.specs.Alone.{in_tile, on_there, are_two, either, listed_one};

use crate::rows::row_on;
use ice_chip::{Group, Row};

// The number of the row that is on of another group under the values of a row, where that group is of the row's tile.
fn on_there(group: &Group, row: &Row, other: &Group) -> Option<usize>
    ensures { result ≡ on_there (sets (group_view group.now) (row_view row.now))
        group.now.tile (group_view other.now) }
{
    if other.tile != group.tile {
        return None;
    }
    row_on(group, row, other)
}

// Whether both are there.
fn are_two(on: Option<usize>, found: Option<usize>) -> bool
    ensures { result ≡ are_two on found }
{
    match (on, found) {
        (Some(_), Some(_)) => true,
        _ => false,
    }
}

// The first, or else the second.
fn either(on: Option<usize>, found: Option<usize>) -> Option<usize>
    ensures { result ≡ either on found }
{
    match on {
        Some(number) => Some(number),
        None => found,
    }
}

// Whether this is the number.
fn is_number(on: Option<usize>, number: usize) -> bool
    ensures { result ≡ is_one number (listed_one on) }
{
    match on {
        None => false,
        Some(on) => on == number,
    }
}

/// Whether the row of this number is the one row that is on under the values of a row of a group, among the groups of
/// that group's tile in a list.
#[tactic(auto, using(crate::proofs::OneOn::two, crate::proofs::OneOn::one_more, crate::proofs::OneOn::last))]
pub fn is_alone(groups: &[&Group], group: &Group, number: usize, row: &Row) -> bool
    ensures { result ≡ is_one number (rows_on (sets (group_view group.now) (row_view row.now))
        (in_tile group.now.tile (views groups.now))) }
{
    let mut on = None;
    for other in groups {
        let found = on_there(group, row, other);
        if are_two(on, found) {
            return false;
        }
        on = either(on, found);
    }
    is_number(on, number)
}
