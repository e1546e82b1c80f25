//! The places of ports, and their names.
ghost use Rattle.std.specs.Prelude.{◌≡◌, ◌==◌, ℕ, ◌<◌, length, slice_index_or, None, Some, if◌then◌else◌, OnOk, IfOk};
ghost use Rattle.std.specs.Option.{option_or};
ghost use Rattle.ice_pads.specs.Constraints.{port_name};
ghost use Rattle.ice_pads.specs.Tables.{ArePlaces};

use ice_base::{Name, NoMemory, SignalNo, name_of};
use ice_net::{Netlist, Port};
use std::alloc::Global;

// Makes room for the place of a signal's port.
fn reach(places: &mut Vec<Option<usize>>, signal: SignalNo) -> Result<(), NoMemory>
    ensures same { (s : ℕ)
        → slice_index_or places.new.items s None ≡ slice_index_or places.old.items s None }
    ensures room { OnOk result (signal.0 < length places.new.items) }
{
    let index = signal.0 as usize;
    if index >= places.len() {
        places.resize(index + 1, None)?;
    }
    Ok(())
}

// Notes the place of a signal's port, unless one is noted before.
fn note(places: &mut Vec<Option<usize>>, signal: SignalNo, place: usize) -> Result<(), NoMemory>
    ensures { OnOk result ((s : ℕ) → slice_index_or places.new.items s None ≡ option_or
        (slice_index_or places.old.items s None) (if signal.0 == s then Some place else None)) }
{
    reach(places, signal)?;
    let index = signal.0 as usize;
    if places[index].is_none() {
        places[index] = Some(place);
    }
    Ok(())
}

/// The place of the first port of each signal; none stands behind the end.
pub fn places_of(alloc: Global, ports: &[Port]) -> Result<Vec<Option<usize>>, NoMemory>
    ensures { IfOk result (λ places. ArePlaces ports.now places.items) }
{
    let mut places = Vec::new(alloc);
    for (place, port) in ports.iter().enumerate() {
        note(&mut places, port.signal, place)?;
    }
    Ok(places)
}

/// The name of the port at a place; nothing where there is none.
pub fn port_name(alloc: Global, netlist: &Netlist, place: usize) -> Result<Name, NoMemory>
    ensures { IfOk result (λ name. name ≡ port_name netlist.now place) }
{
    let ports = netlist.ports();
    match ports.get(place) {
        None => Ok(Name::from_bytes(Vec::new(alloc))),
        Some(port) => name_of(alloc, netlist.name(port.signal)),
    }
}
