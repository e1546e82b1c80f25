//! A netlist and its pin constraints, as texts.
use crate::passes::show_passes;
use crate::text::Text;
use ice_blif::read_blif;
use ice_check::check;
use ice_chip::Chip;
use ice_flow_build::BuildFault;
use ice_net::Netlist;
use ice_pcf::{Pcf, read_pcf};
use std::alloc::Global;
use std::thread::Threads;

// Shows a netlist with these constraints, or the status of its refusal where it is not sound.
fn show_sound<R: Threads + Sync>(
    rt: &R,
    text: &mut Text,
    alloc: Global,
    chip: &Chip,
    netlist: Netlist,
    pcf: Option<&Pcf>,
) -> Result<(), BuildFault> {
    match check(alloc, netlist) {
        Ok(sound) => {
            let shown = show_passes(rt, text, alloc, chip, &sound, pcf);
            drop(sound);
            shown
        }
        Err(_) => {
            text.say(b"error 6\n");
            Ok(())
        }
    }
}

// Shows the netlist of a text with these constraints, or the status of its refusal.
fn show_with<R: Threads + Sync>(
    rt: &R,
    text: &mut Text,
    alloc: Global,
    chip: &Chip,
    blif: &[u8],
    pcf: Option<&Pcf>,
) -> Result<(), BuildFault> {
    match read_blif(alloc, blif).ok() {
        Some(netlist) => show_sound(rt, text, alloc, chip, netlist, pcf),
        None => {
            text.say(b"error 3\n");
            Ok(())
        }
    }
}

/// Shows what stands between the passes of the netlist of a text without pin constraints, or the status of its refusal.
///
/// # Errors
/// Want of memory.
pub fn show_netlist<R: Threads + Sync>(
    rt: &R,
    text: &mut Text,
    alloc: Global,
    chip: &Chip,
    blif: &[u8],
) -> Result<(), BuildFault> {
    show_with(rt, text, alloc, chip, blif, None)
}

/// Shows what stands between the passes of the netlist of a text with the pin constraints of another, or the status of their refusal.
///
/// # Errors
/// Want of memory.
pub fn show_pinned_netlist<R: Threads + Sync>(
    rt: &R,
    text: &mut Text,
    alloc: Global,
    chip: &Chip,
    blif: &[u8],
    pcf: &[u8],
) -> Result<(), BuildFault> {
    match read_pcf(alloc, pcf).ok() {
        Some(pcf) => {
            let shown = show_with(rt, text, alloc, chip, blif, Some(&pcf));
            drop(pcf);
            shown
        }
        None => {
            text.say(b"error 4\n");
            Ok(())
        }
    }
}
