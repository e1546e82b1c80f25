//! Refusals, as they are said.
use crate::text::Text;
use ice_flow_build::BuildFault;
use ice_pads::PinFault;
use ice_place::PlaceFault;

// Says a line of a number behind words.
fn say_one(text: &mut Text, words: &[u8], number: u32) {
    text.count(words, number);
    text.say(b"\n");
}

// Says a line of two numbers, each behind words.
fn say_two(text: &mut Text, words: &[u8], first: u32, others: &[u8], second: u32) {
    text.count(words, first);
    text.count(others, second);
    text.say(b"\n");
}

// Says why no pad is left for a port.
fn say_no_pad(text: &mut Text, port: &[u8]) {
    text.say(b"error 7 pin nopad ");
    text.say(port);
    text.say(b"\n");
}

// Says what lines of pin constraints are refused for. Whether they are.
fn say_lines(text: &mut Text, fault: &PinFault) -> bool {
    match fault {
        PinFault::UnknownPin { line } => say_one(text, b"error 7 pin unknownpin line ", *line),
        PinFault::UnknownPort { line } => say_one(text, b"error 7 pin unknownport line ", *line),
        PinFault::PinTwice { first, second } => {
            say_two(text, b"error 7 pin pintwice lines ", *first, b" ", *second);
        }
        PinFault::PortTwice { first, second } => {
            say_two(text, b"error 7 pin porttwice lines ", *first, b" ", *second);
        }
        _ => return false,
    }
    true
}

// Says what the chip has too few of for the ports or the global buffers. Whether it has: it has the package, and each pad has every wire.
fn say_room(text: &mut Text, fault: &PinFault) -> bool {
    match fault {
        PinFault::NoPadLeft { port } => say_no_pad(text, port.as_bytes()),
        PinFault::TooManyGlobals { need, have } => {
            say_two(text, b"error 7 pin globals need ", *need, b" have ", *have);
        }
        _ => return false,
    }
    true
}

// Says why clusters have no first placement. Whether it is for want of sites.
fn say_places(text: &mut Text, fault: &PlaceFault) -> bool {
    match fault {
        PlaceFault::RunTooLong { length, tallest } => {
            say_two(text, b"error 8 full run ", *length, b" tallest ", *tallest);
        }
        PlaceFault::Overfull { need, have } => {
            say_two(text, b"error 8 full need ", *need, b" have ", *have);
        }
        PlaceFault::RunUnplaced { run, length } => {
            say_two(text, b"error 8 full unplaced ", *run, b" length ", *length);
        }
        PlaceFault::NoMemory => return false,
    }
    true
}

/// Says why a netlist has no placed design.
///
/// # Errors
/// A fault that lies neither in the texts nor in the room on the chip: want of memory.
pub fn say_fault(text: &mut Text, fault: BuildFault) -> Result<(), BuildFault> {
    let is_said = match &fault {
        BuildFault::Pins(pins) => say_lines(text, pins) || say_room(text, pins),
        BuildFault::Places(places) => say_places(text, places),
        _ => false,
    };
    if is_said {
        drop(fault);
        return Ok(());
    }
    Err(fault)
}
