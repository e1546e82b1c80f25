//! The wires that roots drive.
ghost use Rattle.std.specs.Prelude.{◌≡◌, map, length, option_map, IfOk};
ghost use Rattle.ice_chip.specs.Lookups.{wire_named};
ghost use Rattle.ice_chip.specs.WireNames.{output_name};
ghost use Rattle.ice_cells.specs.Tables.{table};
ghost use Rattle.ice_pads.specs.Globals.{global_wire};
ghost use Rattle.ice_place_defs.specs.Plan.{slot_of, plan_in};
ghost use Rattle.ice_emit_nets.specs.Ends.{wire_no};
ghost use Rattle.ice_emit_nets.specs.Nets.{pad_wire};
ghost use Rattle.ice_emit_nets.specs.Rooted.{slot_no, wires_in, root_wires};

use crate::globals::global_no;
use crate::pins::named;
use crate::slots::slots_of;
use ice_base::{NoMemory, TileAt, WireNo};
use ice_chip::{Chip, Pad, output_name};
use ice_chip_sockets::given_wire;
use ice_place_defs::Placed;
use std::alloc::Global;

/// The wire that each pad, each cell and each global buffer drives, if there is one, by their numbers.
#[derive(Drop)]
pub struct DrivenWires {
    /// The wire that the pad of each port gives its level to.
    pub pads: Vec<Option<WireNo>>,
    /// The output of each cell.
    pub cells: Vec<Option<WireNo>>,
    /// The global of each global buffer.
    pub globals: Vec<Option<WireNo>>,
}

// The wire that a pad gives its level to.
#[tactic(auto, using(crate::proofs::Targets::wire_is))]
fn pad_wire(chip: &Chip, pad: Pad) -> Option<WireNo>
    ensures { result ≡ option_map wire_no (pad_wire chip.now pad) }
{
    given_wire(chip, pad)
}

// The wires that pads give their levels to.
fn pad_wires(alloc: Global, chip: &Chip, ports: &[Pad]) -> Result<Vec<Option<WireNo>>, NoMemory>
    ensures { IfOk result (λ wires.
        wires.items ≡ map (λ pad. option_map wire_no (pad_wire chip.now pad)) ports.now) }
{
    let mut wires = Vec::new(alloc);
    for pad in ports {
        wires.push(pad_wire(chip, *pad))?;
    }
    Ok(wires)
}

// The output of a slot; its name has the last digit of the slot's number alone.
fn output_wire(chip: &Chip, tile: TileAt, i: usize) -> Option<WireNo>
    ensures { result ≡ option_map wire_no (wire_named chip.now tile (output_name i)) }
{
    named(chip, tile, &output_name((i % 10) as u8))
}

// The output of a slot, if there is one.
fn slot_wire(chip: &Chip, slot: Option<(TileAt, usize)>) -> Option<WireNo>
    ensures { result ≡ slot_no chip.now slot }
{
    match slot {
        None => None,
        Some((tile, i)) => output_wire(chip, tile, i),
    }
}

// The outputs of slots.
fn slot_wires(
    alloc: Global,
    chip: &Chip,
    slots: &[Option<(TileAt, usize)>],
) -> Result<Vec<Option<WireNo>>, NoMemory>
    ensures { IfOk result (λ wires. wires.items ≡ map (slot_no chip.now) slots.now) }
{
    let mut wires = Vec::new(alloc);
    for slot in slots {
        wires.push(slot_wire(chip, *slot))?;
    }
    Ok(wires)
}

// The outputs of the cells of a placed design.
fn cell_wires(alloc: Global, placed: &Placed<'_>) -> Result<Vec<Option<WireNo>>, NoMemory>
    ensures { IfOk result (λ wires. wires.items ≡ map (slot_no placed.now.chip.now)
        (table (slot_of (plan_in placed.now)) (length placed.now.design.now.cells))) }
{
    let slots = slots_of(alloc, placed)?;
    slot_wires(alloc, placed.chip, slots.as_slice())
}

// The globals of global buffers.
fn global_wires(alloc: Global, chip: &Chip, globals: &[u8]) -> Result<Vec<Option<WireNo>>, NoMemory>
    ensures { IfOk result (λ wires.
        wires.items ≡ map (λ n. option_map wire_no (global_wire chip.now n)) globals.now) }
{
    let mut wires = Vec::new(alloc);
    for number in globals {
        wires.push(global_no(chip, *number))?;
    }
    Ok(wires)
}

/// The wires that the roots of a placed design drive.
///
/// # Errors
/// Want of memory alone.
pub fn wires_of(alloc: Global, placed: &Placed<'_>) -> Result<DrivenWires, NoMemory>
    ensures { IfOk result (λ wires.
        wires_in wires ≡ root_wires placed.now.chip.now (plan_in placed.now)) }
{
    let pads = pad_wires(alloc, placed.chip, placed.ports)?;
    let cells = cell_wires(alloc, placed)?;
    let globals = global_wires(alloc, placed.chip, placed.globals)?;
    Ok(DrivenWires {
        pads,
        cells,
        globals,
    })
}
