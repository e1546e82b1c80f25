//! The chip of rows, or the first fault of the whole.
ghost use Rattle.ice_chip.specs.Answers.{Answers, chip_of};
ghost use Rattle.ice_chip.specs.IsRead.{IsRead};
ghost use Rattle.ice_chip.specs.Views.{parts_view};

use crate::faults::fault_by_names;
use ice_base::NoMemory;
use ice_chip::{Chip, ChipFault, ChipParts, NamedParts};
use std::alloc::Global;

// The chip of these rows with the index of their names, or the first fault of the whole.
fn build_named(alloc: Global, named: NamedParts) -> Result<Chip, ChipFault>
    requires { IsRead named }
    ensures { Answers result (chip_of named) }
{
    let fault = match fault_by_names(alloc, &named) {
        Ok(None) => return Ok(Chip::new(alloc, named)?),
        Ok(Some(fault)) => fault,
        Err(NoMemory) => ChipFault::NoMemory,
    };
    drop(named);
    Err(fault)
}

/// The chip of these rows, or the first fault of the whole.
///
/// It asks that no line of the rows has a fault, as of those that are read from a text (`IsRead`): places, wires, pads and
/// globals are in range, bits have one of the forms of some tile, each switch row has one value for each bit of its group,
/// no tile and no function that is read stands twice, the limits are kept, and only functions that are kept are there. The
/// number of each group's first row is how many rows the groups before it have, and a package's pads are the different ones
/// of its pins. The rows are taken to stand in the order of their lines, as those of a text do: whether there is a fault
/// doesn't rest on that, but which lines are told of it does.
pub fn build(alloc: Global, parts: ChipParts) -> Result<Chip, ChipFault>
    requires { IsRead (parts_view parts) }
    ensures { Answers result (chip_of (parts_view parts)) }
{
    let named = NamedParts::new(alloc, parts)?;
    build_named(alloc, named)
}
