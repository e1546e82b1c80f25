//! The faults of a database as a whole, in their order.
ghost use Rattle.std.specs.Prelude.{◌≡◌, [], None, true, IfOk};
ghost use Rattle.ice_chip.specs.Whole.{whole_fault};
ghost use Rattle.ice_chip.specs.WholeFaults.{name_of_two_wires};
ghost use Rattle.ice_chip.specs.Views.{parts_view};

use crate::groups::{group_beyond_tile, group_without_tile};
use crate::lacking::lacks_function;
use crate::named::name_of_two_wires;
use crate::pins::shared_pin;
use crate::shared::shared_function;
use ice_base::NoMemory;
use ice_chip::{ChipFault, ChipParts, NamedParts};
use std::alloc::Global;

// The lines of a name of two wires. Where names are known to be different none is looked for.
fn clash_of(
    alloc: Global,
    parts: &ChipParts,
    different: bool,
) -> Result<Option<(u32, u32)>, NoMemory>
    requires { different ≡ true
        → name_of_two_wires (parts_view parts.now).tiles [] (parts_view parts.now).names ≡ None }
    ensures { IfOk result (λ lines.
        lines ≡ name_of_two_wires (parts_view parts.now).tiles [] (parts_view parts.now).names) }
{
    if different {
        return Ok(None);
    }
    let lines = name_of_two_wires(alloc, parts)?;
    Ok(lines)
}

// The first fault of the whole, where it may be known that names are different.
fn first_fault(
    alloc: Global,
    parts: &ChipParts,
    different: bool,
) -> Result<Option<ChipFault>, NoMemory>
    requires { different ≡ true
        → name_of_two_wires (parts_view parts.now).tiles [] (parts_view parts.now).names ≡ None }
    ensures { IfOk result (λ fault. fault ≡ whole_fault (parts_view parts.now)) }
{
    if let Some(line) = group_without_tile(parts) {
        return Ok(Some(ChipFault::OutOfRange { line }));
    }
    if let Some((line, other)) = clash_of(alloc, parts, different)? {
        return Ok(Some(ChipFault::Twice { line, other }));
    }
    if let Some(line) = group_beyond_tile(parts) {
        return Ok(Some(ChipFault::BadBit { line }));
    }
    if let Some((line, other)) = shared_function(alloc, parts)? {
        return Ok(Some(ChipFault::SharedFunction { line, other }));
    }
    if let Some(line) = lacks_function(parts) {
        return Ok(Some(ChipFault::LacksFunction { line }));
    }
    if let Some((line, other)) = shared_pin(alloc, parts)? {
        return Ok(Some(ChipFault::SharedPin { line, other }));
    }
    Ok(None)
}

/// The first fault of the whole, or None where these rows make a chip. It fails for want of memory alone.
pub fn whole_fault(alloc: Global, parts: &ChipParts) -> Result<Option<ChipFault>, NoMemory>
    ensures { IfOk result (λ fault. fault ≡ whole_fault (parts_view parts.now)) }
{
    first_fault(alloc, parts, false)
}

/// The same of rows with the index of their names, which may tell at once that these are different.
pub fn fault_by_names(alloc: Global, named: &NamedParts) -> Result<Option<ChipFault>, NoMemory>
    ensures { IfOk result (λ fault. fault ≡ whole_fault named.now) }
{
    let different = named.are_different();
    first_fault(alloc, named.parts(), different)
}
