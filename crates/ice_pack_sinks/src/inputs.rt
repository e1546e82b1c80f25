//! The inputs and outputs of a netlist's cells.
ghost use Rattle.std.specs.Prelude.{◌≡◌};
ghost use Rattle.ice_cells.specs.Origins.{input_level, level_of};
ghost use Rattle.ice_cells.specs.Packed.{ins_at};

use ice_base::SignalNo;
use ice_cells::{Origin, input_origin};
use ice_net::Cell;

// The inputs of the cell of a number.
pub(crate) fn ins_at(cells: &[Cell], j: usize) -> &[Option<SignalNo>]
    ensures { result.now ≡ ins_at cells.now j }
{
    match cells.get(j) {
        Some(cell) => cell.ins.as_slice(),
        None => &[],
    }
}

// The level of an origin that is a constant.
fn level_of(origin: Origin) -> Option<bool>
    ensures { result ≡ level_of origin }
{
    match origin {
        Origin::Fixed(level) => Some(level),
        Origin::Pad(_) | Origin::Made(_) => None,
    }
}

// The level of an input that reads a constant; a missing one reads none.
pub(crate) fn input_level(origins: &[Origin], input: Option<SignalNo>) -> Option<bool>
    ensures { result ≡ input_level origins.now input }
{
    if input.is_none() {
        return None;
    }
    level_of(input_origin(origins, input))
}
