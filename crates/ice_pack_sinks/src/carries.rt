//! What comes into the carries of a design.
ghost use Rattle.std.specs.Prelude.{◌≡◌, ◌++◌, IfOk, OnOk};
ghost use Rattle.ice_cells.specs.Packed.{carry_source, carry_input, carry_by, carries_from};
ghost use Rattle.ice_pack_sinks.specs.Plans.{plan};

use crate::Slices;
use crate::rooting::home_at;
use crate::sinks::root_at;
use ice_base::{NoMemory, to_u32};
use ice_cells::{CarryIn, Origin, Root, input_origin, is_dropped};
use ice_net::{Cell, CellKind, signal_at};
use std::alloc::Global;

// What comes into a carry from a root; where there is none, 0 does.
fn carry_source(root: Option<Root>) -> CarryIn
    ensures { result ≡ carry_source root }
{
    match root {
        Some(root) => CarryIn::Read(root),
        None => CarryIn::Fixed(false),
    }
}

// What comes into a carry from an origin.
fn carry_input(roots: &[Option<Root>], origin: Origin) -> CarryIn
    ensures { result ≡ carry_input roots.now origin }
{
    match origin {
        Origin::Fixed(level) => CarryIn::Fixed(level),
        Origin::Pad(k) => CarryIn::Read(Root::PadIn(k)),
        Origin::Made(j) => carry_source(root_at(roots, j)),
    }
}

// Adds the logic cell of a carry, with what comes into it.
fn push_carry(
    carries: &mut Vec<(u32, CarryIn)>,
    slices: &Slices<'_>,
    home: usize,
    cell: &Cell,
) -> Result<(), NoMemory>
    ensures { OnOk result (carries.new.items ≡ carries.old.items
        ++ carry_by (plan slices.now) home cell.now.kind cell.now.ins cell.now.outs) }
{
    let CellKind::Carry = cell.kind else {
        return Ok(());
    };
    if is_dropped(cell.outs.as_slice()) {
        return Ok(());
    }
    let input = signal_at(cell.ins.as_slice(), 2);
    let origin = input_origin(slices.origins, input);
    carries.push((to_u32(home)?, carry_input(slices.roots, origin)))?;
    Ok(())
}

/// Each logic cell that has a carry, with what comes into it, by the number of the logic cell that each cell goes to.
///
/// # Errors
/// Want of memory alone.
pub fn carries_from(
    alloc: Global,
    slices: &Slices<'_>,
    homes: &[usize],
    cells: &[Cell],
) -> Result<Vec<(u32, CarryIn)>, NoMemory>
    ensures { IfOk result (λ carries.
        carries.items ≡ carries_from (plan slices.now) homes.now 0 cells.now) }
{
    let mut carries = Vec::new(alloc);
    for (j, cell) in cells.iter().enumerate() {
        push_carry(&mut carries, slices, home_at(homes, j), cell)?;
    }
    Ok(carries)
}
