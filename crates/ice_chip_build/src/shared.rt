//! Bits that a read function shares with another function, with a group or with itself.
ghost use Rattle.std.specs.Prelude.{◌≡◌, None, map, true, false, IfOk, OnOk};
ghost use Rattle.std.specs.Map.{lookup};
ghost use Rattle.ice_chip_build.specs.BitsUsed.{none_used, with_line, with_clash, with_use, with_uses, with_functions, with_others, groups_shared};
ghost use Rattle.ice_chip.specs.SharedFunction.{same_bit, bit_use, function_uses, group_uses, two_lines, precedes, first_of, shared_function};
ghost use Rattle.ice_chip_build.specs.Marks.{HaveMarks};
ghost use Rattle.ice_chip_build.specs.UsedViews.{used_view};
ghost use Rattle.ice_chip.specs.Views.{function_view, group_view, parts_view};

use crate::groups::{placed_tile, tile_again};
use crate::least::least_of;
use crate::marks::{marks_of, may_be_noted};
use ice_base::{BitAt, NoMemory, TileAt};
use ice_chip::{
    BitUse, ChipParts, Function, Group, KindBit, TileKind, TileLine, is_foreign, is_read,
};
use indexmap::IndexMap;
use std::alloc::Global;

/// What is known of the uses of bits so far.
#[derive(Drop)]
pub struct UsedBits {
    /// The least line of the uses of each bit.
    pub any: IndexMap<KindBit, u32>,
    /// The least line of its uses by read functions.
    pub read: IndexMap<KindBit, u32>,
    /// The first two lines of uses that clash, the later one first.
    pub shared: Option<(u32, u32)>,
}

// The later line and the earlier one.
fn two_lines(a: u32, b: u32) -> (u32, u32)
    ensures { result ≡ two_lines a b }
{
    if a < b { (b, a) } else { (a, b) }
}

// Whether two lines come before two others.
fn precedes(lines: (u32, u32), others: (u32, u32)) -> bool
    ensures { result ≡ precedes lines others }
{
    lines.0 < others.0 || lines.0 == others.0 && lines.1 < others.1
}

// The first two lines.
fn first_of(known: Option<(u32, u32)>, lines: (u32, u32)) -> Option<(u32, u32)>
    ensures { result ≡ first_of known lines }
{
    match known {
        None => Some(lines),
        Some(others) => {
            if precedes(lines, others) {
                Some(lines)
            } else {
                Some(others)
            }
        }
    }
}

// The first two lines, with those of a use and of an earlier one, where it clashes with one.
fn with_clash(known: Option<(u32, u32)>, line: u32, other: Option<u32>) -> Option<(u32, u32)>
    ensures { result ≡ with_clash known line other }
{
    match other {
        None => known,
        Some(other) => first_of(known, two_lines(line, other)),
    }
}

// Notes the line of a use of a bit.
fn note_line(lines: &mut IndexMap<KindBit, u32>, place: KindBit, line: u32) -> Result<(), NoMemory>
    ensures { OnOk result (lines.new.entries ≡ with_line lines.old.entries place line) }
{
    let least = least_of(lines.get(&place).copied(), line);
    lines.insert(place, least)?;
    Ok(())
}

impl UsedBits {
    /// No uses.
    pub fn new(alloc: Global) -> UsedBits
        ensures { used_view result ≡ none_used }
    {
        UsedBits {
            any: IndexMap::new(alloc),
            read: IndexMap::new(alloc),
            shared: None,
        }
    }

    // Notes a use of a read function, which clashes with every use of its bit.
    fn note_read(&mut self, place: KindBit, line: u32) -> Result<(), NoMemory>
        ensures { OnOk result (used_view self.new ≡ with_use (used_view self.old)
            (record { place = place; is_read = true; line = line }) true) }
    {
        self.shared = with_clash(self.shared, line, self.any.get(&place).copied());
        note_line(&mut self.any, place, line)?;
        note_line(&mut self.read, place, line)
    }

    // Notes another use, which clashes with those of read functions.
    fn note_other(&mut self, place: KindBit, line: u32) -> Result<(), NoMemory>
        ensures { OnOk result (used_view self.new ≡ with_use (used_view self.old)
            (record { place = place; is_read = false; line = line }) false) }
    {
        self.shared = with_clash(self.shared, line, self.read.get(&place).copied());
        note_line(&mut self.any, place, line)
    }

    // Notes a use.
    fn note(&mut self, one: BitUse) -> Result<(), NoMemory>
        ensures { OnOk result (used_view self.new ≡ with_use (used_view self.old) one one.is_read) }
    {
        if one.is_read {
            return self.note_read(one.place, one.line);
        }
        self.note_other(one.place, one.line)
    }

    // Notes the uses of these bits.
    fn note_bits(
        &mut self,
        kind: TileKind,
        is_read: bool,
        line: u32,
        bits: &[BitAt],
    ) -> Result<(), NoMemory>
        ensures { OnOk result (used_view self.new
            ≡ with_uses (used_view self.old) (map (bit_use kind is_read line) bits.now)) }
    {
        for bit in bits {
            let place = KindBit { kind, bit: *bit };
            self.note(BitUse {
                place,
                is_read,
                line,
            })?;
        }
        Ok(())
    }

    // Notes the bits of a function.
    fn note_function(&mut self, function: &Function) -> Result<(), NoMemory>
        ensures { OnOk result (used_view self.new
            ≡ with_uses (used_view self.old) (function_uses (function_view function.now))) }
    {
        let name = function.name.as_bytes();
        if is_read(function.kind, name) {
            return self.note_bits(function.kind, true, function.line, &function.bits);
        }
        if is_foreign(function.kind, name) {
            return self.note_bits(function.kind, false, function.line, &function.bits);
        }
        Ok(())
    }
}

// The first two lines of uses that clash, with those of another use than one of a read function.
fn with_other(
    marks: &[bool],
    read: &IndexMap<KindBit, u32>,
    known: Option<(u32, u32)>,
    place: KindBit,
    line: u32,
) -> Option<(u32, u32)>
    requires { HaveMarks marks.now read.now.entries }
    ensures { result ≡ with_clash known line (lookup (same_bit place) read.now.entries) }
{
    if !may_be_noted(marks, place) {
        return known;
    }
    with_clash(known, line, read.get(&place).copied())
}

// The first two lines of uses that clash, with those of other uses of these bits.
fn with_others(
    marks: &[bool],
    read: &IndexMap<KindBit, u32>,
    known: Option<(u32, u32)>,
    kind: TileKind,
    line: u32,
    bits: &[BitAt],
) -> Option<(u32, u32)>
    requires { HaveMarks marks.now read.now.entries }
    ensures { result ≡ with_others read.now.entries known (map (bit_use kind false line) bits.now) }
{
    let mut first = known;
    for bit in bits {
        let place = KindBit { kind, bit: *bit };
        first = with_other(marks, read, first, place, line);
    }
    first
}

// The first two lines of uses that clash, with those of a group, where a tile stands at its place.
fn with_group(
    marks: &[bool],
    read: &IndexMap<KindBit, u32>,
    known: Option<(u32, u32)>,
    tile: Option<TileLine>,
    group: &Group,
) -> Option<(u32, u32)>
    requires { HaveMarks marks.now read.now.entries }
    ensures { result ≡ with_others read.now.entries known (group_uses tile (group_view group.now)) }
{
    match tile {
        None => known,
        Some(tile) => with_others(marks, read, known, tile.kind, group.line, &group.bits),
    }
}

// Notes the bits of all functions.
fn note_functions(used: &mut UsedBits, functions: &[Function]) -> Result<(), NoMemory>
    ensures { OnOk result (used_view used.new
        ≡ with_functions (used_view used.old) (map function_view functions.now)) }
{
    for function in functions {
        used.note_function(function)?;
    }
    Ok(())
}

// The first two lines of uses that clash, with those of all groups. No read function is among these.
fn with_groups(
    parts: &ChipParts,
    marks: &[bool],
    read: &IndexMap<KindBit, u32>,
    known: Option<(u32, u32)>,
) -> Option<(u32, u32)>
    requires { HaveMarks marks.now read.now.entries }
    ensures { result ≡ groups_shared (parts_view parts.now).tiles read.now.entries known
        (parts_view parts.now).groups }
{
    let mut first = known;
    let mut last = placed_tile(parts, TileAt { x: 0, y: 0 });
    for group in &parts.groups {
        last = tile_again(parts, last, group.tile);
        first = with_group(marks, read, first, last.1, group);
    }
    first
}

/// The later and the earlier line of a bit that a read function shares: with another function of the kind that is
/// read or foreign, with a group in a tile of the kind, or with itself, where it names a bit twice. Of all such
/// lines those with the least later line, and of these the ones with the least earlier line. It fails for want of
/// memory alone.
pub fn shared_function(alloc: Global, parts: &ChipParts) -> Result<Option<(u32, u32)>, NoMemory>
    ensures { IfOk result (λ lines. lines ≡ shared_function (parts_view parts.now)) }
{
    let mut used = UsedBits::new(alloc);
    let noted = note_functions(&mut used, &parts.functions);
    let used = noted.and(Ok(used))?;
    let marks = marks_of(alloc, &used.read)?;
    let lines = with_groups(parts, &marks, &used.read, used.shared);
    drop(used);
    Ok(lines)
}
