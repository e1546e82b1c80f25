//! Which cells share a logic cell.
ghost use Rattle.std.specs.Prelude.{◌≡◌, None, slice_index_or};
ghost use Rattle.ice_cells.specs.Homes.{part, taker, taken_anchor, anchor};
ghost use Rattle.ice_pack_sinks.specs.Plans.{plan};

use crate::Slices;
use ice_cells::Part;

// The number at a place of a list.
pub(crate) fn number_at(numbers: &[Option<usize>], j: usize) -> Option<usize>
    ensures { result ≡ slice_index_or numbers.now j None }
{
    if j < numbers.len() { numbers[j] } else { None }
}

// What the cell of a number is in a logic cell.
pub(crate) fn part(slices: &Slices<'_>, j: usize) -> Part
    ensures { result ≡ part (plan slices.now).facts j }
{
    if j < slices.parts.len() {
        slices.parts[j]
    } else {
        Part::Nothing
    }
}

// The flip-flop that alone takes the look-up table of a number.
pub(crate) fn taker(slices: &Slices<'_>, j: usize) -> Option<usize>
    ensures { result ≡ taker (plan slices.now).facts j }
{
    match part(slices, j) {
        Part::Table => number_at(slices.takers, j),
        _ => None,
    }
}

// The cell by which a flip-flop goes that takes that output.
fn taken_anchor(slices: &Slices<'_>, j: usize, taken: Option<usize>) -> usize
    ensures { result ≡ taken_anchor (plan slices.now).facts j taken }
{
    let Some(k) = taken else {
        return j;
    };
    match taker(slices, k) {
        Some(f) => if f == j { k } else { j },
        None => j,
    }
}

// The cell by which a cell goes: the look-up table whose logic cell it shares, or itself.
pub(crate) fn anchor(slices: &Slices<'_>, j: usize) -> usize
    ensures { result ≡ anchor (plan slices.now).facts j }
{
    match part(slices, j) {
        Part::Table | Part::Nothing => j,
        Part::Flop(taken) => taken_anchor(slices, j, taken),
        Part::Carry => number_at(slices.luts, j).unwrap_or(j),
    }
}
