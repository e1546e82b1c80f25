//! The names of the signals and ports that a fault is at.
ghost use Rattle.std.specs.Prelude.{◌≡◌, ◌<◌, length, slice_get, Some, All, IfOk};
ghost use Rattle.ice_net.specs.Formed.{IsFormed};
ghost use Rattle.ice_check.specs.Refusals.{names_of, port_name};

use crate::Names;
use ice_base::{Name, NoMemory, SignalNo, name_of};
use ice_net::Netlist;
use std::alloc::Global;

// A copy of the name of a signal.
pub(crate) fn signal_name(alloc: Global, netlist: &Netlist, signal: usize) -> Result<Name, NoMemory>
    requires formed { IsFormed netlist.now }
    requires signal { signal < length netlist.now.names }
    ensures { IfOk result (λ name. slice_get netlist.now.names signal ≡ Some name) }
{
    let name = name_of(alloc, netlist.name(SignalNo(signal as u32)))?;
    Ok(name)
}

// Copies of the names of signals.
pub(crate) fn names_of(
    alloc: Global,
    netlist: &Netlist,
    signals: &[usize],
) -> Result<Names, NoMemory>
    requires formed { IsFormed netlist.now }
    requires signals { All (λ signal. signal < length netlist.now.names) signals.now }
    ensures { IfOk result (λ names. names ≡ names_of netlist.now signals.now) }
{
    let mut names = Vec::new(alloc);
    for &signal in signals {
        names.push(signal_name(alloc, netlist, signal)?)?;
    }
    Ok(Names::from_vec(names))
}

// A copy of the name of the port at a place.
pub(crate) fn port_name(alloc: Global, netlist: &Netlist, place: usize) -> Result<Name, NoMemory>
    requires { place < length netlist.now.ports }
    ensures { IfOk result (λ name. port_name netlist.now (Some place) ≡ Some name) }
{
    let port = netlist.ports()[place];
    let name = signal_name(alloc, netlist, port.signal.0 as usize)?;
    Ok(name)
}
