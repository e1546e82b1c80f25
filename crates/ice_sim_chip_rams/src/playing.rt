//! What a configured chip that its block RAMs close shows for a list of levels, as a text.
ghost use Rattle.std.specs.Prelude.{◌≡◌, ◌+◌, ◌*◌, ◌++◌, length, take, IfOk, OnOk};
ghost use Rattle.ice_bits.specs.Grids.{IsOf};
ghost use Rattle.ice_decode.specs.Meaning.{chip_start};
ghost use Rattle.ice_decode.specs.Refusals.{IsCircuitOf};
ghost use Rattle.ice_sim.specs.ChipRuns.{with_state};
ghost use Rattle.ice_sim_levels.specs.DriveTexts.{drives_line, drives_text};
ghost use Rattle.ice_sim_chip_rams.specs.ClosedChips.{closed_step, shown_from, shown_with, closed_bits_show};

use crate::pads::all_pads;
use crate::run::step;
use crate::setups::rams_at;
use ice_base::NoMemory;
use ice_chip::{Chip, Pad};
use ice_chip_rams::RamSite;
use ice_decode::{Circuit, rams};
use ice_net::Drive;
use ice_ram::Ram;
use ice_sim::ChipRun;
use ice_sim_levels::{Levels, put_drives};
use std::alloc::Global;

// One step, and the line of what the chip drives the first pads with in it.
fn play_step(
    run: &mut ChipRun<'_>,
    rams: &mut [Ram],
    first: usize,
    levels: &[bool],
    joined: &mut [bool],
    drives: &mut [Drive],
    text: &mut Vec<u8>,
) -> Result<(), NoMemory>
    requires pads { length run.old.bonded ≡ first + 74 * length rams.old }
    requires joined { length joined.old ≡ length run.old.bonded }
    requires drives { length drives.old ≡ length run.old.bonded }
    ensures run { run.new ≡ with_state run.old (closed_step run.old.parts run.old.configuration
        run.old.bonded first run.old.bonded first (run.old.state, rams.old) levels.now).0.0 }
    ensures rams { rams.new ≡ (closed_step run.old.parts run.old.configuration run.old.bonded first
        run.old.bonded first (run.old.state, rams.old) levels.now).0.1 }
    ensures text { OnOk result
        (text.new.items ≡ text.old.items ++ drives_line (take first (closed_step run.old.parts
        run.old.configuration run.old.bonded first run.old.bonded first
        (run.old.state, rams.old) levels.now).1)) }
{
    step(run, rams, first, levels, joined, drives);
    put_drives(text, &drives[..first])
}

// Adds the line of each step to a text.
fn play_on(
    run: &mut ChipRun<'_>,
    rams: &mut [Ram],
    first: usize,
    levels: &Levels,
    joined: &mut [bool],
    drives: &mut [Drive],
    text: &mut Vec<u8>,
) -> Result<(), NoMemory>
    requires pads { length run.old.bonded ≡ first + 74 * length rams.old }
    requires joined { length joined.old ≡ length run.old.bonded }
    requires drives { length drives.old ≡ length run.old.bonded }
    ensures { OnOk result (text.new.items ≡ text.old.items ++ drives_text (shown_from run.old.parts
        run.old.configuration run.old.bonded first run.old.bonded first
        (run.old.state, rams.old) levels.now)) }
{
    for step in levels.steps() {
        play_step(run, rams, first, step, joined, drives, text)?;
    }
    Ok(())
}

// The text of all steps of a chip that these block RAMs close, seen at the first pads, which are so many; behind them stand the pins.
fn play_at(
    alloc: Global,
    chip: &Chip,
    circuit: &Circuit,
    rams: &mut [Ram],
    pads: &[Pad],
    first: usize,
    levels: &Levels,
) -> Result<Vec<u8>, NoMemory>
    requires circuit { IsCircuitOf chip.now circuit.now.configuration circuit.now }
    requires pads { length pads.now ≡ first + 74 * length rams.old }
    ensures { IfOk result (λ text. text.items ≡ drives_text (shown_from chip.now
        circuit.now.configuration pads.now first pads.now first
        (chip_start chip.now, rams.old) levels.now)) }
{
    let mut run = ChipRun::new(alloc, chip, circuit, pads)?;
    let mut joined = vec![in alloc; false; pads.len()]?;
    let mut drives = vec![in alloc; Drive::Off; pads.len()]?;
    let mut text = Vec::new(alloc);
    play_on(
        &mut run,
        rams,
        first,
        levels,
        &mut joined,
        &mut drives,
        &mut text,
    )?;
    Ok(text)
}

// The text of all steps of a chip that the block RAMs of these sites close, seen at these pads.
fn play_closed(
    alloc: Global,
    chip: &Chip,
    circuit: &Circuit,
    sites: &[RamSite],
    bonded: &[Pad],
    levels: &Levels,
) -> Result<Vec<u8>, NoMemory>
    requires circuit { IsCircuitOf chip.now circuit.now.configuration circuit.now }
    requires bits { IsOf chip.now circuit.now.configuration }
    ensures { IfOk result (λ text. text.items ≡ drives_text
        (shown_with chip.now circuit.now.configuration sites.now bonded.now bonded.now levels.now)) }
{
    let pads = all_pads(alloc, sites, bonded)?;
    let mut held = rams_at(alloc, chip, circuit.bits(), sites)?;
    let text = play_at(alloc, chip, circuit, &mut held, &pads, bonded.len(), levels)?;
    Ok(text)
}

/// The text of what a configured chip that its block RAMs close drives these pads with, for a list of levels, a line for each step.
/// Each step of the list has a level for each of these pads, in their order.
///
/// # Errors
/// Want of memory alone.
pub fn play_chip(
    alloc: Global,
    chip: &Chip,
    circuit: &Circuit,
    bonded: &[Pad],
    levels: &Levels,
) -> Result<Vec<u8>, NoMemory>
    requires circuit { IsCircuitOf chip.now circuit.now.configuration circuit.now }
    requires bits { IsOf chip.now circuit.now.configuration }
    ensures { IfOk result (λ text. text.items
        ≡ drives_text
        (closed_bits_show chip.now circuit.now.configuration bonded.now bonded.now levels.now)) }
{
    let sites = rams(alloc, chip, circuit.bits())?;
    let text = play_closed(alloc, chip, circuit, &sites, bonded, levels)?;
    Ok(text)
}
