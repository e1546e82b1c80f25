//! The faults of ports with their SB_IO cells: a port at more than one, and a port that needs one and has none.
ghost use Rattle.std.specs.Prelude.{◌≡◌, length, map, IfOk};
ghost use Rattle.ice_net.specs.Drivers.{pin_of};
ghost use Rattle.ice_check.specs.Tables.{ArePlaces, AreTimes};
ghost use Rattle.ice_check.specs.Faults.{port_is, is_shared, is_bare, is_bare_by, pad_shared, inout_bare};

use crate::drivers::buffers;
use crate::lists::pins;
use crate::tables::times_of;
use ice_base::NoMemory;
use ice_net::{Netlist, Way};
use std::alloc::Global;

// Whether the port at a place is at more than one SB_IO, by how often each signal is at one.
fn shared_at(netlist: &Netlist, counts: &[usize], place: usize) -> bool
    requires { AreTimes (length netlist.now.names) (map pin_of netlist.now.cells) counts.now }
    ensures { result ≡ port_is netlist.now (is_shared netlist.now.cells) place }
{
    let Some(port) = netlist.ports().get(place) else {
        return false;
    };
    1 < counts[port.signal.0 as usize]
}

// The first port at more than one SB_IO.
#[tactic(auto, using(crate::proofs::FirstNumbers::first_here, crate::proofs::FirstNumbers::first_next, crate::proofs::FirstNumbers::first_none))]
fn first_shared(netlist: &Netlist, counts: &[usize]) -> Option<usize>
    requires { AreTimes (length netlist.now.names) (map pin_of netlist.now.cells) counts.now }
    ensures { result ≡ pad_shared netlist.now }
{
    let count = netlist.ports().len();
    for place in 0..count {
        if shared_at(netlist, counts, place) {
            return Some(place);
        }
    }
    None
}

/// The place of the first port that is the PACKAGE_PIN of more than one SB_IO, in the list of ports.
///
/// # Errors
/// Want of memory alone.
#[tactic(auto, using(crate::proofs::ListsBelow::pins_below))]
pub(crate) fn pad_shared(alloc: Global, netlist: &Netlist) -> Result<Option<usize>, NoMemory>
    ensures { IfOk result (λ place. place ≡ pad_shared netlist.now) }
{
    let pins = pins(alloc, netlist.cells())?;
    let counts = times_of(alloc, netlist.signals() as usize, &pins)?;
    let place = first_shared(netlist, &counts);
    Ok(place)
}

// Whether a port of that way is bare, by whether it is at an SB_IO.
fn is_bare_by(buffered: bool, way: Way) -> bool
    ensures { result ≡ is_bare_by buffered way }
{
    match way {
        Way::Input | Way::Output => false,
        Way::Both => !buffered,
    }
}

// Whether the port at a place is bare, by the first SB_IO at each signal.
fn bare_at(netlist: &Netlist, buffers: &[Option<usize>], place: usize) -> bool
    requires { ArePlaces (length netlist.now.names) (map pin_of netlist.now.cells) buffers.now }
    ensures { result ≡ port_is netlist.now (is_bare netlist.now.cells) place }
{
    let Some(port) = netlist.ports().get(place) else {
        return false;
    };
    is_bare_by(buffers[port.signal.0 as usize].is_some(), port.way)
}

// The first port that is both an input and an output, without an SB_IO.
#[tactic(auto, using(crate::proofs::FirstNumbers::first_here, crate::proofs::FirstNumbers::first_next, crate::proofs::FirstNumbers::first_none))]
fn first_bare(netlist: &Netlist, buffers: &[Option<usize>]) -> Option<usize>
    requires { ArePlaces (length netlist.now.names) (map pin_of netlist.now.cells) buffers.now }
    ensures { result ≡ inout_bare netlist.now }
{
    let count = netlist.ports().len();
    for place in 0..count {
        if bare_at(netlist, buffers, place) {
            return Some(place);
        }
    }
    None
}

/// The place of the first port that is both an input and an output and not the PACKAGE_PIN of an SB_IO, in the list of ports.
///
/// # Errors
/// Want of memory alone.
pub(crate) fn inout_bare(alloc: Global, netlist: &Netlist) -> Result<Option<usize>, NoMemory>
    ensures { IfOk result (λ place. place ≡ inout_bare netlist.now) }
{
    let buffers = buffers(alloc, netlist)?;
    let place = first_bare(netlist, &buffers);
    Ok(place)
}
