//! The rows of switches that are on.
ghost use Rattle.std.specs.Prelude.{◌≡◌, ◌<◌, ◌≤◌, ◌+◌, length, map, option_map, IfOk, IfSome};
ghost use Rattle.std.specs.Bool.{beq};
ghost use Rattle.std.specs.List.{list_any};
ghost use Rattle.std.specs.Cmp.Lexicographic.{pointwise};
ghost use Rattle.ice_chip.specs.Limits.{most_rows};
ghost use Rattle.ice_chip.specs.Views.{group_view};
ghost use Rattle.ice_bits.specs.Configuration.{bits_of, bit_in};
ghost use Rattle.ice_bits.specs.Settings.{number_with, row_on};
ghost use Rattle.ice_decode.specs.Drivers.{switch_on, switches_on};

use ice_base::{BitAt, NoMemory, RowNo};
use ice_bits::{Bits, TileBits};
use ice_chip::{Chip, Group};
use ice_decode::Switch;
use std::alloc::Global;

// Whether one of these bits of a tile is 1.
fn has_one(tile: &TileBits, bits: &[BitAt]) -> bool
    ensures { result ≡ list_any (λ v. v) (map (bit_in tile.now) bits.now) }
{
    for bit in bits {
        if tile.get(*bit) {
            return true;
        }
    }
    false
}

// Whether these bits of a tile have the values, one for each bit.
#[tactic(auto, using(crate::proofs::RowValues::same_next, crate::proofs::RowValues::same_none, crate::proofs::RowValues::other_length))]
fn have_values(tile: &TileBits, bits: &[BitAt], values: &[bool]) -> bool
    ensures { result ≡ pointwise beq values.now (map (bit_in tile.now) bits.now) }
{
    if values.len() != bits.len() {
        return false;
    }
    for place in 0..values.len() {
        if values[place] != tile.get(bits[place]) {
            return false;
        }
    }
    true
}

// The place of the first row of a group whose values the bits have.
fn place_with(tile: &TileBits, group: &Group) -> Option<usize>
    ensures number { option_map (λ place. group.now.first.0 + place) result
        ≡ number_with (map (bit_in tile.now) group.now.bits.items) (group_view group.now).first
        (group_view group.now).rows }
    ensures within { IfSome result (λ place. place < length group.now.rows.items) }
{
    for place in 0..group.rows.len() {
        if have_values(tile, &group.bits, &group.rows[place].values) {
            return Some(place);
        }
    }
    None
}

// The place of the row of a group that is on.
#[tactic(auto, using(crate::proofs::RowsOn::off_there))]
fn place_on(bits: &Bits, group: &Group) -> Option<usize>
    ensures number { option_map (λ place. group.now.first.0 + place) result
        ≡ row_on (bits_of bits.now) (group_view group.now) }
    ensures within { IfSome result (λ place. place < length group.now.rows.items) }
{
    let tile = bits.tile(group.tile)?;
    if !has_one(tile, &group.bits) {
        return None;
    }
    place_with(tile, group)
}

// The row of a group that is on.
fn switch_on(bits: &Bits, group: &Group) -> Option<Switch>
    requires { group.now.first.0 + length group.now.rows.items ≤ most_rows }
    ensures { result ≡ switch_on (bits_of bits.now) (group_view group.now) }
{
    let place = place_on(bits, group)?;
    let row = &group.rows[place];
    Some(Switch {
        row: RowNo(group.first.0 + place as u32),
        tile: group.tile,
        source: row.source,
        target: group.wire,
    })
}

/// The rows of a chip that are on, in the order of their numbers.
///
/// # Errors
/// Want of memory alone.
#[tactic(auto, using(ice_chip::proofs::GroupRows::few_before))]
pub(crate) fn switches_on(alloc: Global, chip: &Chip, bits: &Bits) -> Result<Vec<Switch>, NoMemory>
    ensures { IfOk result (λ switches.
        switches.items ≡ switches_on (bits_of bits.now) chip.now.groups) }
{
    chip.is_chip();
    let mut switches = Vec::new(alloc);
    for group in chip.groups() {
        if let Some(switch) = switch_on(bits, group) {
            switches.push(switch)?;
        }
    }
    Ok(switches)
}
