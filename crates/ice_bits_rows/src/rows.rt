//! Rows that are on under the values of one row.
ghost use Rattle.std.specs.Prelude.{◌≡◌, ◌<◌, ◌&&◌, None, true, if◌then◌else◌};
ghost use Rattle.std.specs.Bool.{beq};
ghost use Rattle.std.specs.List.{list_any};
ghost use Rattle.std.specs.Cmp.Lexicographic.{pointwise};
ghost use Rattle.ice_chip.specs.Views.{row_view, group_view};
ghost use Rattle.ice_bits.specs.Settings.{values_of, number_with, row_on};
ghost use Rattle.ice_base.specs.Places.{same_place};
ghost use Rattle.ice_bits_rows.specs.Own.{place_code, rises_from};
ghost use Rattle.ice_bits_rows.specs.Sound.{value_at, sets};

use ice_base::{BitAt, TileAt};
use ice_chip::{Group, Row};

// Whether this is the bit, with the value 1.
fn is_one_at(own: BitAt, value: bool, bit: BitAt) -> bool
    ensures { result ≡ (same_place own bit && value) }
{
    own == bit && value
}

// Whether the value of the bit is 1 in these values of a list of bits.
#[tactic(auto, using(crate::proofs::Values::next, crate::proofs::Values::none))]
fn value_at(bits: &[BitAt], values: &[bool], bit: BitAt) -> bool
    ensures { result ≡ value_at bits.now values.now bit }
{
    for k in 0..bits.len().min(values.len()) {
        if is_one_at(bits[k], values[k], bit) {
            return true;
        }
    }
    false
}

// Whether the values of a row of a group set a bit of a tile.
fn sets(group: &Group, row: &Row, tile: TileAt, bit: BitAt) -> bool
    ensures { result ≡ sets (group_view group.now) (row_view row.now) tile bit }
{
    group.tile == tile && value_at(&group.bits, &row.values, bit)
}

// Whether the values of a row set a bit of another group.
fn sets_some(group: &Group, row: &Row, other: &Group) -> bool
    ensures { result ≡ list_any (λ v. v)
        (values_of (sets (group_view group.now) (row_view row.now)) (group_view other.now)) }
{
    for bit in other.bits.as_slice() {
        if sets(group, row, other.tile, *bit) {
            return true;
        }
    }
    false
}

// Whether the bits of another group have these values under those of a row.
#[tactic(auto, using(crate::proofs::Values::alike_next, crate::proofs::Values::alike_end, crate::proofs::Values::unlike_long))]
fn are_values(group: &Group, row: &Row, other: &Group, values: &[bool]) -> bool
    ensures { result ≡ pointwise beq values.now
        (values_of (sets (group_view group.now) (row_view row.now)) (group_view other.now)) }
{
    if values.len() != other.bits.len() {
        return false;
    }
    for k in 0..values.len() {
        if values[k] != sets(group, row, other.tile, other.bits[k]) {
            return false;
        }
    }
    true
}

// The number of the first row of another group that has the values of its bits under those of a row.
fn number_with(group: &Group, row: &Row, other: &Group) -> Option<usize>
    ensures { result ≡ number_with
        (values_of (sets (group_view group.now) (row_view row.now)) (group_view other.now))
        (group_view other.now).first (group_view other.now).rows }
{
    for k in 0..other.rows.len() {
        if are_values(group, row, other, &other.rows[k].values) {
            return Some(other.first.0 as usize + k);
        }
    }
    None
}

// The numbers of the places of bits are below this one: a row and a column are below 256.
const PLACES: u32 = 65_536;

// The place of a bit as one number.
fn place_code(bit: BitAt) -> u32
    ensures code { result ≡ place_code bit }
    ensures below { result < PLACES }
{
    u32::from(bit.row) * 256 + u32::from(bit.col)
}

// Whether the bits stand in the order of their places, so that none stands twice.
pub fn are_rising(bits: &[BitAt]) -> bool
    ensures { result ≡ rises_from 0 bits.now }
{
    let mut low = 0u32;
    for bit in bits {
        let code = place_code(*bit);
        if code < low {
            return false;
        }
        low = code + 1;
    }
    true
}

// Whether the lists of bits are the same.
#[tactic(auto, using(crate::proofs::Alike::next, crate::proofs::Alike::end, crate::proofs::Alike::unlike))]
fn are_same(bits: &[BitAt], others: &[BitAt]) -> bool
    ensures { result ≡ pointwise same_place bits.now others.now }
{
    if bits.len() != others.len() {
        return false;
    }
    for k in 0..bits.len() {
        if bits[k] != others[k] {
            return false;
        }
    }
    true
}

/// Whether the lists of values are the same. Most differ in the first values.
#[tactic(auto, using(crate::proofs::Alike::next, crate::proofs::Alike::end, crate::proofs::Alike::unlike))]
pub fn are_alike(values: &[bool], others: &[bool]) -> bool
    ensures { result ≡ pointwise beq values.now others.now }
{
    if values.len() != others.len() {
        return false;
    }
    for k in 0..values.len() {
        if values[k] != others[k] {
            return false;
        }
    }
    true
}

// Whether another group plainly has the values of the row itself: it has the bits of the row's group, in the order of
// their places, and the row one value for each.
fn has_own_values(group: &Group, row: &Row, other: &Group) -> bool
    ensures { result ≡ true
        → values_of (sets (group_view group.now) (row_view row.now)) (group_view other.now)
        ≡ row.now.values.items }
{
    if group.tile != other.tile || row.values.len() != group.bits.len() {
        return false;
    }
    if !are_same(&group.bits, &other.bits) {
        return false;
    }
    are_rising(&group.bits)
}

// Whether one of the values is 1.
pub fn has_one(values: &[bool]) -> bool
    ensures { result ≡ list_any (λ v. v) values.now }
{
    for value in values {
        if *value {
            return true;
        }
    }
    false
}

// The number of the first row of a group that has the values.
fn number_of(values: &[bool], other: &Group) -> Option<usize>
    ensures { result
        ≡ number_with values.now (group_view other.now).first (group_view other.now).rows }
{
    for k in 0..other.rows.len() {
        if are_alike(&other.rows[k].values, values) {
            return Some(other.first.0 as usize + k);
        }
    }
    None
}

// The number of the row of a group that is on where the group's bits have these values.
fn row_with(values: &[bool], other: &Group) -> Option<usize>
    ensures { result ≡ (if list_any (λ v. v) values.now
        then number_with values.now (group_view other.now).first (group_view other.now).rows
        else None) }
{
    if !has_one(values) {
        return None;
    }
    number_of(values, other)
}

// The number of the row of a group that is on under the values of a row, where one is, as for any group.
fn any_row_on(group: &Group, row: &Row, other: &Group) -> Option<usize>
    ensures { result
        ≡ row_on (sets (group_view group.now) (row_view row.now)) (group_view other.now) }
{
    if !sets_some(group, row, other) {
        return None;
    }
    number_with(group, row, other)
}

/// The number of the row of a group that is on under the values of a row, where one is.
pub fn row_on(group: &Group, row: &Row, other: &Group) -> Option<usize>
    ensures { result
        ≡ row_on (sets (group_view group.now) (row_view row.now)) (group_view other.now) }
{
    if has_own_values(group, row, other) {
        return row_with(&row.values, other);
    }
    any_row_on(group, row, other)
}
