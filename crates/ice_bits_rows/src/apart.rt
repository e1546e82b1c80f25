//! Whether no two groups of a tile have a bit in common, and none has one of a foreign function. So it is in the known
//! databases, where groups of a tile stand together.
ghost use Rattle.std.specs.Prelude.{◌≡◌, ◌++◌, ◌∷◌, [], None, Some, All, List, length, not, true, false, slice_set, IfOk};
ghost use Rattle.ice_base.specs.declared.bit.BitAt.{BitAt as Bit};
ghost use Rattle.ice_chip.specs.Database.{SwitchGroup};
ghost use Rattle.ice_chip.specs.Lookups.{kind_at};
ghost use Rattle.ice_chip.specs.Views.{group_view};
ghost use Rattle.ice_bits_rows.specs.Apart.{is_marked, AreApart, AreFresh, HasMet, IsApart, Marks};
ghost use Rattle.ice_bits_rows.specs.Bundles.{is_of_function};
ghost use Rattle.ice_bits_rows.specs.ForeignBits.{AreOfForeign};
ghost use Rattle.ice_bits_rows.specs.Owners.{is_within, place_of};

use crate::foreign::{ForeignBits, foreign_in};
use crate::owners::{PLACES, is_within, place_of};
use ice_base::{BitAt, NoMemory, TileAt};
use ice_chip::{Chip, Group};
use indexmap::IndexSet;
use std::alloc::Global;

/// What was met of groups up to one of them.
#[derive(Drop)]
pub struct Met {
    /// Their tiles.
    pub tiles: IndexSet<TileAt>,
    /// The tile of the last one.
    pub last: Option<TileAt>,
    /// Which bits of that tile were met, or are those of foreign functions.
    pub marks: Vec<bool>,
}

// Marks a bit: whether it was not marked.
#[tactic(auto, using(crate::proofs::Blocks::place_below))]
fn mark(marks: &mut Vec<bool>, bit: BitAt) -> bool
    requires within { is_within bit ≡ true }
    requires long { length marks.old.items ≡ 1024 }
    ensures fresh { result ≡ not (is_marked marks.old.items bit) }
    ensures marks { marks.new.items ≡ slice_set marks.old.items (place_of bit) true }
{
    let place = place_of(bit);
    let fresh = !marks[place];
    marks[place] = true;
    fresh
}

// Marks the bits of a group: whether none was marked, nor stands twice.
fn mark_all(marks: &mut Vec<bool>, bits: &[BitAt]) -> bool
    requires within { All (λ b. is_within b ≡ true) bits.now }
    requires long { length marks.old.items ≡ 1024 }
    ensures fresh { result ≡ true → AreFresh marks.old.items bits.now }
    ensures marked { result ≡ true → Marks bits.now marks.old.items marks.new.items }
{
    for bit in bits {
        if !mark(marks, *bit) {
            return false;
        }
    }
    true
}

// Marks the bits of foreign functions, where some tile may have them.
fn mark_foreign(marks: &mut Vec<bool>, bits: &[BitAt])
    requires { length marks.old.items ≡ 1024 }
    ensures { Marks bits.now marks.old.items marks.new.items }
{
    for bit in bits {
        if is_within(*bit) {
            let _fresh = mark(marks, *bit);
        }
    }
}

// The marks of a tile of which no group was met: those of foreign functions alone.
fn marks_of(
    alloc: Global,
    chip: &Chip,
    foreign: &ForeignBits,
    tile: TileAt,
) -> Result<Vec<bool>, NoMemory>
    requires { AreOfForeign chip.now.functions foreign.now }
    ensures long { IfOk result (λ marks. length marks.items ≡ 1024) }
    ensures native { IfOk result (λ marks. (b : Bit) → is_within b ≡ true
        → is_marked marks.items b ≡ false
        → is_of_function chip.now.functions (kind_at chip.now tile) b ≡ false) }
{
    let mut marks = vec![in alloc; false; PLACES]?;
    mark_foreign(&mut marks, foreign_in(chip, foreign, chip.kind_at(tile)));
    Ok(marks)
}

// Goes on to the tile of a group: whether no group before the last one's tile stood there.
fn enter(
    alloc: Global,
    chip: &Chip,
    foreign: &ForeignBits,
    met: &mut Met,
    tile: TileAt,
) -> Result<bool, NoMemory>
    requires foreign { AreOfForeign chip.now.functions foreign.now }
    requires long { length met.old.marks.items ≡ 1024 }
    ensures long { length met.new.marks.items ≡ 1024 }
    ensures entered { IfOk result (λ entered. entered ≡ true
        → (groups : List SwitchGroup) → HasMet chip.now groups met.old
        → HasMet chip.now groups met.new × (met.new.last ≡ Some tile)) }
{
    if met.last == Some(tile) {
        return Ok(true);
    }
    if !met.tiles.insert(tile)? {
        return Ok(false);
    }
    met.marks = marks_of(alloc, chip, foreign, tile)?;
    met.last = Some(tile);
    Ok(true)
}

// Meets a group: whether none of its bits was met in its tile, stands twice, or is that of a foreign function.
fn meet(
    alloc: Global,
    chip: &Chip,
    foreign: &ForeignBits,
    met: &mut Met,
    group: &Group,
) -> Result<bool, NoMemory>
    requires foreign { AreOfForeign chip.now.functions foreign.now }
    requires long { length met.old.marks.items ≡ 1024 }
    requires bits { All (λ b. is_within b ≡ true) group.now.bits.items }
    ensures { IfOk result (λ apart. apart ≡ true
        → (groups : List SwitchGroup) → HasMet chip.now groups met.old
        → IsApart chip.now groups (group_view group.now)
        × HasMet chip.now (groups ++ group_view group.now ∷ []) met.new) }
{
    if !enter(alloc, chip, foreign, met, group.tile)? {
        return Ok(false);
    }
    Ok(mark_all(&mut met.marks, group.bits.as_slice()))
}

// No groups.
fn nothing_met(alloc: Global) -> Result<Met, NoMemory>
    ensures long { IfOk result (λ met. length met.marks.items ≡ 1024) }
    ensures last { IfOk result (λ met. met.last ≡ None) }
{
    let marks = vec![in alloc; false; PLACES]?;
    Ok(Met {
        tiles: IndexSet::new(alloc),
        last: None,
        marks,
    })
}

/// Whether no two groups of a tile have a bit in common, no group names one twice, and none has one of a foreign function. Where
/// groups of a tile don't stand together it is not looked for.
///
/// # Errors
/// Want of memory alone.
pub fn are_apart(alloc: Global, chip: &Chip, foreign: &ForeignBits) -> Result<bool, NoMemory>
    requires { AreOfForeign chip.now.functions foreign.now }
    ensures { IfOk result (λ apart. apart ≡ true → AreApart chip.now chip.now.groups) }
{
    chip.is_chip();
    let mut met = nothing_met(alloc)?;
    for group in chip.groups() {
        if !meet(alloc, chip, foreign, &mut met, group)? {
            return Ok(false);
        }
    }
    Ok(true)
}
