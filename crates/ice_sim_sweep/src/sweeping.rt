//! One step of a compiled netlist or chip.
ghost use Rattle.std.specs.Prelude.{◌≡◌, ◌<◌, length, map, All};
ghost use Rattle.ice_net.specs.Meaning.{table_bit};
ghost use Rattle.ice_sim_sweep.specs.Sweeps.{copied, kept_levels, gate_level, made, tap_drive, next_memory, remembered};
ghost use Rattle.ice_sim_sweep.specs.Plans.{IsLinkWithin, IsGateWithin, IsTapWithin, AreSlotsWithin, IsKeeperWithin, ArePartsWithin, swept};

use crate::flops::{fired, is_edge};
use crate::parts::{Gate, Keeper, Link, Memory, Tap};
use crate::plan::SweepPlan;
use ice_net::Drive;

// Gives signals the levels of ports.
fn copy_levels(links: &[Link], levels: &[bool], values: &mut [bool])
    requires { All (IsLinkWithin (length levels.now) (length values.old)) links.now }
    ensures { values.new ≡ copied links.now levels.now values.old }
{
    for link in links {
        values[link.to] = levels[link.from];
    }
}

// Gives signals what flip-flops keep.
fn copy_kept(links: &[Link], memories: &[Memory], values: &mut [bool])
    requires { All (IsLinkWithin (length memories.now) (length values.old)) links.now }
    ensures { values.new ≡ copied links.now (kept_levels memories.now) values.old }
{
    for link in links {
        values[link.to] = memories[link.from].kept;
    }
}

// A bit of a table.
fn bit(table: u16, j: u16) -> bool
    requires { j < 16 }
    ensures { result ≡ table_bit table j }
{
    (table >> j) & 1 == 1
}

// What a table makes of the levels in its slots.
fn gate_level(gate: &Gate, values: &[bool]) -> bool
    requires { IsGateWithin (length values.now) gate.now }
    ensures { result ≡ gate_level values.now gate.now }
{
    let first = u16::from(values[gate.first as usize]);
    let second = u16::from(values[gate.second as usize]);
    let third = u16::from(values[gate.third as usize]);
    let fourth = u16::from(values[gate.fourth as usize]);
    bit(gate.table, first + 2 * (second + 2 * (third + 2 * fourth)))
}

// Makes the signals of tables, one after another.
fn make(gates: &[Gate], values: &mut [bool])
    requires { All (IsGateWithin (length values.old)) gates.now }
    ensures { values.new ≡ made gates.now values.old }
{
    for gate in gates {
        let level = gate_level(gate, values);
        values[gate.out as usize] = level;
    }
}

// What a port drives.
fn tap_drive(tap: &Tap, values: &[bool]) -> Drive
    requires { IsTapWithin (length values.now) tap.now }
    ensures { result ≡ tap_drive values.now tap.now }
{
    if !values[tap.enable as usize] {
        return Drive::Off;
    }
    if values[tap.level as usize] {
        Drive::High
    } else {
        Drive::Low
    }
}

// Takes down what each port drives.
fn show(taps: &[Tap], values: &[bool], out: &mut [Drive])
    requires within { All (IsTapWithin (length values.now)) taps.now }
    requires out { length out.old ≡ length taps.now }
    ensures { out.new ≡ map (tap_drive values.now) taps.now }
{
    for k in 0..out.len() {
        out[k] = tap_drive(&taps[k], values);
    }
}

// What a flip-flop keeps after a step.
fn next_memory(keeper: &Keeper, memory: Memory, values: &[bool]) -> Memory
    requires { AreSlotsWithin (length values.now) keeper.now }
    ensures { result ≡ next_memory values.now keeper.now memory }
{
    let clock = values[keeper.clock as usize];
    let enable = values[keeper.enable as usize];
    let set = values[keeper.set as usize];
    let datum = values[keeper.datum as usize];
    let edge = is_edge(keeper.falling, memory.clock, clock);
    Memory {
        kept: fired(keeper.reset, edge, enable, set, datum, memory.kept),
        clock: Some(clock),
    }
}

// Takes down what flip-flops keep after a step.
fn remember(keepers: &[Keeper], values: &[bool], memories: &mut [Memory])
    requires { All (IsKeeperWithin (length memories.old) (length values.now)) keepers.now }
    ensures { memories.new ≡ remembered keepers.now values.now memories.old }
{
    for keeper in keepers {
        let place = keeper.cell as usize;
        memories[place] = next_memory(keeper, memories[place], values);
    }
}

/// One step: all levels are taken with what flip-flops kept before it. `levels` has the levels of the ports, and `out` becomes what
/// they drive. It takes no memory.
pub fn sweep(
    plan: &SweepPlan,
    levels: &[bool],
    memories: &mut [Memory],
    values: &mut [bool],
    out: &mut [Drive],
)
    requires within { ArePartsWithin (length levels.now) (length memories.old)
        (length values.old) plan.now }
    requires out { length out.old ≡ length plan.now.taps.items }
    ensures values { values.new ≡ swept plan.now levels.now memories.old values.old }
    ensures out { out.new ≡ map (tap_drive values.new) plan.now.taps.items }
    ensures memories { memories.new ≡ remembered plan.now.keepers.items values.new memories.old }
{
    copy_levels(plan.pads.as_slice(), levels, values);
    copy_kept(plan.keeps.as_slice(), memories, values);
    make(plan.gates.as_slice(), values);
    show(plan.taps.as_slice(), values, out);
    remember(plan.keepers.as_slice(), values, memories);
}
