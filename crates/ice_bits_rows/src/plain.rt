//! Groups whose rows are all alone, which one look at the group shows.
ghost use Rattle.std.specs.Prelude.{◌≡◌, ◌||◌, [], map, true, false};
ghost use Rattle.std.specs.List.{Contains};
ghost use Rattle.ice_chip.specs.Views.{row_view, group_view};
ghost use Rattle.ice_bits_rows.specs.Lists.{views};
ghost use Rattle.ice_bits_rows.specs.Own.{each_once};
ghost use Rattle.ice_bits_rows.specs.Plain.{is_above, do_rise, has_again, differs, do_differ, is_meeting, meets_one, is_plain, AreAlone};

use crate::bundle::has_bit;
use crate::index::Index;
use crate::rows::{are_alike, are_rising, has_one};
use ice_base::BitAt;
use ice_chip::{Group, Row};

// Whether values stand above others: where they first differ, theirs is 1. Values that are missing are 0.
#[tactic(auto, using(crate::proofs::Ascent::above_next, crate::proofs::Ascent::above_end))]
fn is_above(values: &[bool], others: &[bool]) -> bool
    ensures { result ≡ is_above values.now others.now }
{
    let shared = values.len().min(others.len());
    for k in 0..shared {
        if values[k] != others[k] {
            return values[k];
        }
    }
    has_one(&values[shared..])
}

// Whether the rows have this many values each, and the values of each stand above those of the row before it; those of
// the first aren't all 0.
fn do_rise(rows: &[Row], count: usize) -> bool
    ensures { result ≡ do_rise count [] (map row_view rows.now) }
{
    let mut low: &[bool] = &[];
    for row in rows {
        if row.values.len() != count || !is_above(&row.values, low) {
            return false;
        }
        low = row.values.as_slice();
    }
    true
}

// Whether one of these rows has the values.
fn has_again(values: &[bool], rows: &[Row]) -> bool
    ensures { result ≡ has_again values.now (map row_view rows.now) }
{
    for row in rows {
        if are_alike(values, &row.values) {
            return true;
        }
    }
    false
}

// Whether a row has this many values, which aren't all 0, and no later row has the same.
fn differs(count: usize, row: &Row, later: &[Row]) -> bool
    ensures { result ≡ differs count (row_view row.now) (map row_view later.now) }
{
    row.values.len() == count && has_one(&row.values) && !has_again(&row.values, later)
}

// Whether the rows have this many values each, of which none are all 0, and no two rows have the same.
fn do_differ(rows: &[Row], count: usize) -> bool
    ensures { result ≡ do_differ count (map row_view rows.now) }
{
    for k in 0..rows.len() {
        if !differs(count, &rows[k], &rows[k + 1..]) {
            return false;
        }
    }
    true
}

// Whether the values of the rows rise or else differ. In nearly all groups they rise.
fn are_told_apart(rows: &[Row], count: usize) -> bool
    ensures { result
        ≡ (do_rise count [] (map row_view rows.now) || do_differ count (map row_view rows.now)) }
{
    do_rise(rows, count) || do_differ(rows, count)
}

// Whether no bit stands twice.
fn are_different(bits: &[BitAt]) -> bool
    ensures { result ≡ each_once bits.now }
{
    for k in 0..bits.len() {
        if has_bit(&bits[k + 1..], bits[k]) {
            return false;
        }
    }
    true
}

// Whether no bit stands twice. In nearly all groups the bits rise.
fn stand_once(bits: &[BitAt]) -> bool
    ensures { result ≡ each_once bits.now }
{
    if are_rising(bits) {
        return true;
    }
    are_different(bits)
}

// Whether another group is of the group's tile and has a bit of it.
fn is_meeting(group: &Group, other: &Group) -> bool
    ensures { result ≡ is_meeting (group_view group.now) (group_view other.now) }
{
    if other.tile != group.tile {
        return false;
    }
    for bit in other.bits.as_slice() {
        if has_bit(&group.bits, *bit) {
            return true;
        }
    }
    false
}

// Whether one group of a list, and no second one, is of the group's tile and has a bit of it.
fn meets_one(groups: &[&Group], group: &Group) -> bool
    ensures { result ≡ meets_one (group_view group.now) false (views groups.now) }
{
    let mut met = false;
    for other in groups {
        let here = is_meeting(group, other);
        if here && met {
            return false;
        }
        met = met || here;
    }
    met
}

// Whether no bit of a group stands twice, the values of its rows differ, and no other group of its bundle has a bit of it.
fn looks_plain(index: &Index, group: &Group) -> bool
    ensures { result ≡ is_plain index.now.chip.now.groups (group_view group.now) }
{
    stand_once(&group.bits)
        && are_told_apart(&group.rows, group.bits.len())
        && meets_one(index.groups_into(group.wire), group)
}

/// Whether each row of a group of the chip is plainly the one row of its bundle that is on under its values: no bit of the
/// group stands twice, the values of its rows differ and aren't all 0, and no other group of the bundle has a bit of it. Rows
/// may be alone also where this is false.
pub fn is_plain(index: &Index, group: &Group) -> bool
    requires member { Contains index.now.chip.now.groups (group_view group.now) }
    ensures { result ≡ true → AreAlone index.now.chip.now.groups (group_view group.now) }
{
    match index.owners() {
        None => are_told_apart(&group.rows, group.bits.len()),
        Some(_) => looks_plain(index, group),
    }
}
