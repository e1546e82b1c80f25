//! Marks of the bits of the tiles of each kind that are noted with a line. Few bits are, and most that are sought are not.
ghost use Rattle.std.specs.Prelude.{◌≡◌, length, IfOk};
ghost use Rattle.ice_chip_build.specs.Marks.{is_within, kind_number, may_be_noted, place_of, with_mark, HaveMarks};

use ice_base::NoMemory;
use ice_chip::{KindBit, TileKind};
use indexmap::IndexMap;
use std::alloc::Global;

// How many places there are: one for each bit that a tile of one of the four kinds may have, in 16 rows of 64.
const PLACES: usize = 4096;

// The number of a kind of tile.
fn kind_number(kind: TileKind) -> usize
    ensures { result ≡ kind_number kind }
{
    match kind {
        TileKind::Io => 0,
        TileKind::Logic => 1,
        TileKind::RamBottom => 2,
        TileKind::RamTop => 3,
    }
}

// Whether some tile may have the bit.
fn is_within(place: KindBit) -> bool
    ensures { result ≡ is_within place }
{
    place.bit.row < 16 && place.bit.col < 64
}

// The place of a bit of a kind of tile.
fn place_of(place: KindBit) -> usize
    ensures { result ≡ place_of place }
{
    kind_number(place.kind) * 1024 + usize::from(place.bit.row) * 64 + usize::from(place.bit.col)
}

// Marks a bit, where some tile may have it.
fn mark(marks: &mut Vec<bool>, place: KindBit)
    requires { length marks.old.items ≡ 4096 }
    ensures { marks.new.items ≡ with_mark marks.old.items place }
{
    if is_within(place) {
        marks[place_of(place)] = true;
    }
}

/// The marks of all bits that are noted.
///
/// # Errors
/// Want of memory alone.
#[tactic(auto, using(crate::proofs::MarkLaws::marks_next, crate::proofs::MarkLaws::long_with))]
pub fn marks_of(alloc: Global, lines: &IndexMap<KindBit, u32>) -> Result<Vec<bool>, NoMemory>
    ensures { IfOk result (λ marks. HaveMarks marks.items lines.now.entries) }
{
    let mut marks = vec![in alloc; false; PLACES]?;
    for (place, _) in lines {
        mark(&mut marks, *place);
    }
    Ok(marks)
}

/// Whether a bit may be one of those that are noted: where this is false, it is none.
pub fn may_be_noted(marks: &[bool], place: KindBit) -> bool
    ensures { result ≡ may_be_noted marks.now place }
{
    if !is_within(place) {
        return true;
    }
    marks.get(place_of(place)).copied().unwrap_or(false)
}
