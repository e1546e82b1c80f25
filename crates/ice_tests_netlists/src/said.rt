//! Pads as they are said in tests.
use ice_chip::Pad;
use ice_pads::{Pads, PinFault};
use std::alloc::Global;
use std::process::Abort;

// Adds a pad: its column, its row and its number.
fn say_port(rt: &impl Abort, alloc: Global, text: &mut String, pad: Pad) {
    let (x, y, pio) = (pad.tile.x, pad.tile.y, pad.pio);
    let words = format!(in alloc; " {x} {y} {pio}").expect(rt, "memory");
    text.push_str(words.as_str()).expect(rt, "memory");
}

// Adds the number of a global.
fn say_global(rt: &impl Abort, alloc: Global, text: &mut String, global: u8) {
    let word = format!(in alloc; " {global}").expect(rt, "memory");
    text.push_str(word.as_str()).expect(rt, "memory");
}

// The pads of the ports, and the globals.
fn said_pads(rt: &impl Abort, alloc: Global, pads: &Pads) -> String {
    let mut text = String::new(alloc);
    text.push_str("pads").expect(rt, "memory");
    for pad in pads.ports() {
        say_port(rt, alloc, &mut text, *pad);
    }
    text.push_str(" globals").expect(rt, "memory");
    for global in pads.globals() {
        say_global(rt, alloc, &mut text, *global);
    }
    text
}

/// What was assigned, or the fault.
pub fn said(rt: &impl Abort, alloc: Global, answer: &Result<Pads, PinFault>) -> String {
    match answer {
        Ok(pads) => said_pads(rt, alloc, pads),
        Err(fault) => format!(in alloc; "{fault}").expect(rt, "memory"),
    }
}
