//! What a netlist that RAMs close shows for a list of levels, as a text.
ghost use Rattle.std.specs.Prelude.{◌≡◌, ◌+◌, ◌*◌, ◌++◌, length, map, take, IfOk, OnOk};
ghost use Rattle.ice_base_values.specs.System.{machine_shows};
ghost use Rattle.ice_sim_levels.specs.DriveTexts.{drives_line, drives_text};
ghost use Rattle.ice_sim_rams.specs.Closed.{closed_step, closed_shows};

use ice_base::NoMemory;
use ice_check::Sound;
use ice_net::Drive;
use ice_ram::{Ram, join_levels, step_all};
use ice_sim_levels::{Levels, put_drives};
use ice_sim_sweep::NetRun;
use std::alloc::Global;

// One step: the levels from outside are joined by what the RAMs give, and the RAMs take what the netlist drives.
fn step(
    run: &mut NetRun<'_>,
    rams: &mut [Ram],
    first: usize,
    levels: &[bool],
    joined: &mut [bool],
    drives: &mut [Drive],
)
    requires ports { length run.old.0.ports ≡ first + 74 * length rams.old }
    requires joined { length joined.old ≡ length run.old.0.ports }
    requires drives { length drives.old ≡ length run.old.0.ports }
    ensures run { run.new
        ≡ (run.old.0, (closed_step run.old.0 first (run.old.1, rams.old) levels.now).0.0) }
    ensures rams { rams.new ≡ (closed_step run.old.0 first (run.old.1, rams.old) levels.now).0.1 }
    ensures drives { drives.new ≡ (closed_step run.old.0 first (run.old.1, rams.old) levels.now).1 }
{
    join_levels(first, levels, rams, joined);
    run.step(joined, drives);
    step_all(rams, drives, first);
}

// One step, and the line of what the first ports drive in it.
fn play_step(
    run: &mut NetRun<'_>,
    rams: &mut [Ram],
    first: usize,
    levels: &[bool],
    joined: &mut [bool],
    drives: &mut [Drive],
    text: &mut Vec<u8>,
) -> Result<(), NoMemory>
    requires ports { length run.old.0.ports ≡ first + 74 * length rams.old }
    requires joined { length joined.old ≡ length run.old.0.ports }
    requires drives { length drives.old ≡ length run.old.0.ports }
    ensures run { run.new
        ≡ (run.old.0, (closed_step run.old.0 first (run.old.1, rams.old) levels.now).0.0) }
    ensures rams { rams.new ≡ (closed_step run.old.0 first (run.old.1, rams.old) levels.now).0.1 }
    ensures text { OnOk result (text.new.items ≡ text.old.items ++ drives_line
        (take first (closed_step run.old.0 first (run.old.1, rams.old) levels.now).1)) }
{
    step(run, rams, first, levels, joined, drives);
    put_drives(text, &drives[..first])
}

// Adds the line of each step to a text.
fn play_on(
    run: &mut NetRun<'_>,
    rams: &mut [Ram],
    first: usize,
    levels: &Levels,
    joined: &mut [bool],
    drives: &mut [Drive],
    text: &mut Vec<u8>,
) -> Result<(), NoMemory>
    requires ports { length run.old.0.ports ≡ first + 74 * length rams.old }
    requires joined { length joined.old ≡ length run.old.0.ports }
    requires drives { length drives.old ≡ length run.old.0.ports }
    ensures { OnOk result (text.new.items ≡ text.old.items ++ drives_text (map (take first)
        (machine_shows (closed_step run.old.0 first) (run.old.1, rams.old) levels.now))) }
{
    for step in levels.steps() {
        play_step(run, rams, first, step, joined, drives, text)?;
    }
    Ok(())
}

/// The text of what the first ports of a netlist drive for a list of levels, a line for each step. Behind these ports stand
/// those of RAMs, which close the netlist. Each step of the list has the levels of the first ports.
pub fn play_closed(
    alloc: Global,
    sound: &Sound,
    first: usize,
    rams: &mut [Ram],
    levels: &Levels,
) -> Result<Vec<u8>, NoMemory>
    requires { length sound.now.ports ≡ first + 74 * length rams.old }
    ensures { IfOk result (λ text.
        text.items ≡ drives_text (closed_shows sound.now first rams.old levels.now)) }
{
    let ports = sound.netlist().ports().len();
    let mut run = NetRun::new(alloc, sound)?;
    let mut joined = vec![in alloc; false; ports]?;
    let mut drives = vec![in alloc; Drive::Off; ports]?;
    let mut text = Vec::new(alloc);
    play_on(
        &mut run,
        rams,
        first,
        levels,
        &mut joined,
        &mut drives,
        &mut text,
    )?;
    Ok(text)
}
