//! The faults of a cell by itself: an SB_IO of no known type, or at no port.
ghost use Rattle.std.specs.Prelude.{◌≡◌};
ghost use Rattle.ice_net.specs.Drivers.{pin_of};
ghost use Rattle.ice_net.specs.Uses.{is_type};
ghost use Rattle.ice_net.specs.declared.cell.Cell.{Cell};
ghost use Rattle.ice_check.specs.Faults.{cell_is, is_type_out, is_no_port, is_portless, pin_type_out, pin_not_port};

use crate::lists::pin_of;
use ice_base::SignalNo;
use ice_net::{Cell, CellKind, Netlist};

/// The PIN_TYPE of an input.
pub(crate) const INPUT_TYPE: u8 = 0b00_0001;

/// The PIN_TYPE of an output.
pub(crate) const OUTPUT_TYPE: u8 = 0b01_1001;

/// The PIN_TYPE of an output with an enable.
pub(crate) const ENABLED_TYPE: u8 = 0b10_1001;

// Whether a PIN_TYPE is one of the three.
fn is_type(pin_type: u8) -> bool
    ensures { result ≡ is_type pin_type }
{
    pin_type == INPUT_TYPE || pin_type == OUTPUT_TYPE || pin_type == ENABLED_TYPE
}

// Whether a cell is an SB_IO of no known type.
fn is_type_out(cell: &Cell) -> bool
    ensures { result ≡ is_type_out cell.now.kind }
{
    match cell.kind {
        CellKind::PadCell { pin_type, .. } => !is_type(pin_type),
        _ => false,
    }
}

// Whether the cell at a place is an SB_IO of no known type.
fn type_out_at(netlist: &Netlist, place: usize) -> bool
    ensures { result ≡ cell_is netlist.now (λ (cell : Cell). is_type_out cell.kind) place }
{
    match netlist.cells().get(place) {
        Some(cell) => is_type_out(cell),
        None => false,
    }
}

/// The place of the first SB_IO whose PIN_TYPE is none of the three, in the list of cells. It takes no memory.
#[tactic(auto, using(crate::proofs::FirstNumbers::first_here, crate::proofs::FirstNumbers::first_next, crate::proofs::FirstNumbers::first_none))]
pub(crate) fn pin_type_out(netlist: &Netlist) -> Option<usize>
    ensures { result ≡ pin_type_out netlist.now }
{
    let count = netlist.cells().len();
    for place in 0..count {
        if type_out_at(netlist, place) {
            return Some(place);
        }
    }
    None
}

// Whether a PACKAGE_PIN is missing or no port.
fn is_no_port(netlist: &Netlist, pin: Option<SignalNo>) -> bool
    ensures { result ≡ is_no_port netlist.now.ports pin }
{
    match pin {
        Some(signal) => netlist.way_of(signal).is_none(),
        None => true,
    }
}

// Whether a cell is an SB_IO at no port.
fn is_portless(netlist: &Netlist, cell: &Cell) -> bool
    ensures { result ≡ is_portless netlist.now.ports cell.now.kind (pin_of cell.now) }
{
    match cell.kind {
        CellKind::PadCell { .. } => is_no_port(netlist, pin_of(cell)),
        _ => false,
    }
}

// Whether the cell at a place is an SB_IO at no port.
fn portless_at(netlist: &Netlist, place: usize) -> bool
    ensures { result ≡ cell_is netlist.now
        (λ (cell : Cell). is_portless netlist.now.ports cell.kind (pin_of cell)) place }
{
    match netlist.cells().get(place) {
        Some(cell) => is_portless(netlist, cell),
        None => false,
    }
}

/// The place of the first SB_IO whose PACKAGE_PIN is missing or no port, in the list of cells. It takes no memory.
#[tactic(auto, using(crate::proofs::FirstNumbers::first_here, crate::proofs::FirstNumbers::first_next, crate::proofs::FirstNumbers::first_none))]
pub(crate) fn pin_not_port(netlist: &Netlist) -> Option<usize>
    ensures { result ≡ pin_not_port netlist.now }
{
    let count = netlist.cells().len();
    for place in 0..count {
        if portless_at(netlist, place) {
            return Some(place);
        }
    }
    None
}
