//! Rows that lead from one wire to another.
ghost use Rattle.std.specs.Prelude.{◌≡◌, ◌≤◌, ◌+◌, length, option_map};
ghost use Rattle.ice_chip.specs.IsRead.{HasWiresBelow};
ghost use Rattle.ice_chip.specs.Limits.{most_rows};
ghost use Rattle.ice_chip.specs.Views.{group_view};
ghost use Rattle.ice_bits_rows.specs.FirstSound.{first_of, first_sound, some_usable, is_joined};

use crate::index::Index;
use crate::sound::{is_sound, is_usable};
use ice_base::{RowNo, WireNo};
use ice_chip::Group;

// The first sound row of a group from the source.
#[tactic(auto, using(crate::proofs::Known::source_below))]
fn first_of(index: &Index, source: WireNo, group: &Group) -> Option<RowNo>
    requires wires { HasWiresBelow index.now.chip.now.wires (group_view group.now) }
    requires few { group.now.first.0 + length group.now.rows.items ≤ most_rows }
    ensures { option_map (λ row. row.0) result ≡ first_of index.now.chip.now source.0
        (group_view group.now) group.now.first.0 (group_view group.now).rows }
{
    for k in 0..group.rows.len() {
        let row = &group.rows[k];
        let number = group.first.0 + k as u32;
        if row.source == source && is_sound(index, group, number, row) {
            return Some(RowNo(number));
        }
    }
    None
}

/// The first sound row, in row order, from one wire to another.
pub fn first_sound(index: &Index, source: WireNo, target: WireNo) -> Option<RowNo>
    ensures { option_map (λ row. row.0) result ≡ first_sound index.now.chip.now source.0 target.0 }
{
    index.chip.is_chip();
    for group in index.groups_into(target) {
        if let Some(row) = first_of(index, source, group) {
            return Some(row);
        }
    }
    None
}

// Whether a usable row of a group comes from the source.
#[tactic(auto, using(crate::proofs::Known::source_below))]
fn has_usable(index: &Index, source: WireNo, group: &Group) -> bool
    requires wires { HasWiresBelow index.now.chip.now.wires (group_view group.now) }
    requires few { group.now.first.0 + length group.now.rows.items ≤ most_rows }
    ensures { result ≡ some_usable index.now.chip.now source.0 (group_view group.now)
        group.now.first.0 (group_view group.now).rows }
{
    for k in 0..group.rows.len() {
        let row = &group.rows[k];
        let number = group.first.0 + k as u32;
        if row.source == source && is_usable(index, group, number, row) {
            return true;
        }
    }
    false
}

/// Whether a usable row leads from one wire to another.
pub fn is_joined(index: &Index, source: WireNo, target: WireNo) -> bool
    ensures { result ≡ is_joined index.now.chip.now source.0 target.0 }
{
    index.chip.is_chip();
    for group in index.groups_into(target) {
        if has_usable(index, source, group) {
            return true;
        }
    }
    false
}
