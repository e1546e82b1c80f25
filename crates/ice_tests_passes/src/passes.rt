//! What stands between the passes of a netlist.
use crate::faults::say_fault;
use crate::layout::{lay, pack};
use crate::routes::show_placed;
use crate::text::Text;
use ice_check::Sound;
use ice_chip::Chip;
use ice_flow_build::BuildFault;
use ice_pcf::Pcf;
use std::alloc::Global;
use std::thread::Threads;

// Shows the packed design of a netlist and its clusters.
fn show_packed(text: &mut Text, alloc: Global, sound: &Sound) -> Result<(), BuildFault> {
    let packed = pack(text, alloc, sound)?;
    drop(packed);
    Ok(())
}

// Shows the same and, by pin constraints, what follows from it, up to the first refusal.
fn show_pinned<R: Threads + Sync>(
    rt: &R,
    text: &mut Text,
    alloc: Global,
    chip: &Chip,
    sound: &Sound,
    pcf: &Pcf,
) -> Result<(), BuildFault> {
    match lay(text, alloc, chip, b"sample", pcf, sound) {
        Ok(layout) => {
            let shown = show_placed(rt, text, alloc, chip, &layout);
            drop(layout);
            shown?;
            Ok(())
        }
        Err(fault) => say_fault(text, fault),
    }
}

/// Shows the packed design of a netlist and what follows from it: its clusters, and with pin constraints pads and globals, the first
/// placement, its wire length, its nets, their routes and the bits, or the first refusal.
///
/// # Errors
/// Want of memory.
pub fn show_passes<R: Threads + Sync>(
    rt: &R,
    text: &mut Text,
    alloc: Global,
    chip: &Chip,
    sound: &Sound,
    pcf: Option<&Pcf>,
) -> Result<(), BuildFault> {
    match pcf {
        None => show_packed(text, alloc, sound),
        Some(pcf) => show_pinned(rt, text, alloc, chip, sound, pcf),
    }
}
