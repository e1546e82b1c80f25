//! What a netlist shows for a list of levels, as a text.
ghost use Rattle.std.specs.Prelude.{◌≡◌, ◌++◌, length, All, IfOk, OnOk};
ghost use Rattle.ice_net.specs.Meaning.{shows, step};
ghost use Rattle.ice_sim_levels.specs.LevelTexts.{HasWidth};
ghost use Rattle.ice_sim_levels.specs.DriveTexts.{drives_line, drives_text};

use crate::NetRun;
use ice_base::NoMemory;
use ice_check::Sound;
use ice_net::Drive;
use ice_sim_levels::{Levels, put_drives};
use std::alloc::Global;

// One step, and the line of what the ports drive in it.
fn play_step(
    run: &mut NetRun<'_>,
    levels: &[bool],
    drives: &mut [Drive],
    text: &mut Vec<u8>,
) -> Result<(), NoMemory>
    requires levels { length levels.now ≡ length run.old.0.ports }
    requires drives { length drives.old ≡ length run.old.0.ports }
    ensures run { run.new ≡ (run.old.0, (step run.old.0 run.old.1 levels.now).0) }
    ensures text { OnOk result
        (text.new.items ≡ text.old.items ++ drives_line (step run.old.0 run.old.1 levels.now).1) }
{
    run.step(levels, drives);
    put_drives(text, drives)
}

/// The text of what a netlist's ports drive for a list of levels, a line for each step. Each step of the list has a level for each
/// port.
pub fn play(alloc: Global, sound: &Sound, levels: &Levels) -> Result<Vec<u8>, NoMemory>
    requires { All (HasWidth (length sound.now.ports)) levels.now }
    ensures { IfOk result (λ text. text.items ≡ drives_text (shows sound.now levels.now)) }
{
    let mut run = NetRun::new(alloc, sound)?;
    let mut drives = vec![in alloc; Drive::Off; sound.netlist().ports().len()]?;
    let mut text = Vec::new(alloc);
    for step in levels.steps() {
        play_step(&mut run, step, &mut drives, &mut text)?;
    }
    Ok(text)
}
