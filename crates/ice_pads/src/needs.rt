//! What the ports and the global buffers of a design need.
ghost use Rattle.std.specs.Prelude.{◌≡◌, map, IfOk};
ghost use Rattle.std.specs.List.{list_any};
ghost use Rattle.ice_cells.specs.declared.cell.LogicCell.{LogicCell};
ghost use Rattle.ice_pads.specs.Assign.{chosen_pads};
ghost use Rattle.ice_pads.specs.Wants.{want_at, wants, is_of_global, enables, resets, pins_of, pad_of, buffer_of, buffers};

use crate::{Buffer, Chosen, Pins, Want};
use ice_base::NoMemory;
use ice_cells::{Control, Design, DesignPad, LogicCell, Root};
use ice_chip::Pad;
use ice_net::Reset;
use std::alloc::Global;

// What the port of a pad needs.
fn want_at(pad: &DesignPad) -> Want
    ensures { result ≡ want_at pad.now }
{
    Want {
        input: pad.reads,
        output: pad.pin_type == 25 || pad.pin_type == 41,
        enable: pad.pin_type == 41,
        pullup: pad.pullup,
    }
}

/// What each port of a design needs.
pub fn wants(alloc: Global, design: &Design) -> Result<Vec<Want>, NoMemory>
    ensures { IfOk result (λ found. found.items ≡ wants design.now) }
{
    let mut found = Vec::new(alloc);
    for pad in design.pads() {
        found.push(want_at(pad))?;
    }
    Ok(found)
}

// Whether this is the output of a global buffer.
fn is_of_global(number: u32, root: Option<Root>) -> bool
    ensures { result ≡ is_of_global number root }
{
    match root {
        Some(Root::GlobalOut(other)) => other == number,
        _ => false,
    }
}

// Whether a global buffer enables a flip-flop.
fn enables(number: u32, flop: Option<(Control, Reset)>) -> bool
    ensures { result ≡ enables number flop }
{
    match flop {
        None => false,
        Some((control, _)) => is_of_global(number, control.enable),
    }
}

// Whether a global buffer sets or resets a flip-flop.
fn resets(number: u32, flop: Option<(Control, Reset)>) -> bool
    ensures { result ≡ resets number flop }
{
    match flop {
        None => false,
        Some((control, _)) => is_of_global(number, control.reset),
    }
}

// Whether a global buffer enables a flip-flop of these cells.
fn some_enables(cells: &[LogicCell], number: u32) -> bool
    ensures { result ≡ list_any (λ (c : LogicCell). enables number c.flop) cells.now }
{
    for cell in cells {
        if enables(number, cell.flop) {
            return true;
        }
    }
    false
}

// Whether a global buffer sets or resets a flip-flop of these cells.
fn some_resets(cells: &[LogicCell], number: u32) -> bool
    ensures { result ≡ list_any (λ (c : LogicCell). resets number c.flop) cells.now }
{
    for cell in cells {
        if resets(number, cell.flop) {
            return true;
        }
    }
    false
}

/// As what a global buffer is read by the flip-flops of these cells.
pub fn pins_of(cells: &[LogicCell], number: u32) -> Pins
    ensures { result ≡ pins_of cells.now number }
{
    Pins {
        enable: some_enables(cells, number),
        reset: some_resets(cells, number),
    }
}

// The pad whose level a root has, where the ports have these pads.
fn pad_of(ports: &[Chosen], root: Option<Root>) -> Option<Pad>
    ensures { result ≡ pad_of (chosen_pads ports.now) root }
{
    match root {
        Some(Root::PadIn(port)) => Some(ports.get(port as usize)?.pad),
        _ => None,
    }
}

// What decides which globals the global buffer of this number can take.
fn buffer_of(design: &Design, ports: &[Chosen], number: u32) -> Buffer
    ensures { result ≡ buffer_of design.now (chosen_pads ports.now) number }
{
    let roots = design.globals();
    let root = roots.get(number as usize).copied().unwrap_or(None);
    Buffer {
        pad: pad_of(ports, root),
        pins: pins_of(design.cells(), number),
    }
}

/// What decides which globals each global buffer of a design can take.
pub fn buffers(alloc: Global, design: &Design, ports: &[Chosen]) -> Result<Vec<Buffer>, NoMemory>
    ensures { IfOk result (λ found. found.items ≡ buffers design.now (chosen_pads ports.now)) }
{
    let Ok(count) = u32::try_from(design.globals().len()) else {
        return Err(NoMemory);
    };
    let mut found = Vec::new(alloc);
    for number in 0..count {
        found.push(buffer_of(design, ports, number))?;
    }
    Ok(found)
}
