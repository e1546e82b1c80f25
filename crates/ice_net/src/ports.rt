//! The ports of a netlist, with the place of each signal's port.
ghost use Rattle.std.specs.Prelude.{◌≡◌, ℕ, ◌<◌, ◌≤◌, length, slice_index_or, None, OnOk, OnErr};
ghost use Rattle.ice_net.specs.NetlistData.{merged, with_port, port_at};
ghost use Rattle.ice_net.specs.Ways.{way_of, PlacesAre};

use crate::{Port, Way};
use ice_base::{NoMemory, SignalNo};

/// The way of a port that is named as a port once more: Both where the ways differ.
pub fn merged(before: Way, now: Way) -> Way
    ensures { result ≡ merged before now }
{
    match (before, now) {
        (Way::Input, Way::Input) => Way::Input,
        (Way::Output, Way::Output) => Way::Output,
        _ => Way::Both,
    }
}

// Makes room for the place of a signal's port.
fn reach(places: &mut Vec<Option<usize>>, signal: SignalNo) -> Result<(), NoMemory>
    ensures same { (s : ℕ)
        → slice_index_or places.new.items s None ≡ slice_index_or places.old.items s None }
    ensures room { OnOk result (signal.0 < length places.new.items) }
{
    let index = signal.0 as usize;
    if index >= places.len() {
        places.resize(index + 1, None)?;
    }
    Ok(())
}

// Makes a signal a port, where the places of all ports are known.
pub(crate) fn add_port(
    ports: &mut Vec<Port>,
    places: &mut Vec<Option<usize>>,
    signal: SignalNo,
    way: Way,
) -> Result<(), NoMemory>
    requires { PlacesAre ports.old.items places.old.items }
    ensures places { PlacesAre ports.new.items places.new.items }
    ensures ports { OnOk result (ports.new.items ≡ with_port ports.old.items signal way) }
    ensures refused { OnErr result (ports.new.items ≡ ports.old.items) }
{
    reach(places, signal)?;
    let index = signal.0 as usize;
    if let Some(place) = places[index] {
        let port = ports[place];
        ports[place] = Port {
            signal: port.signal,
            way: merged(port.way, way),
        };
        return Ok(());
    }
    let place = ports.len();
    ports.push(Port { signal, way })?;
    places[index] = Some(place);
    Ok(())
}

// The way of a signal's port, where the places of all ports are known.
pub(crate) fn way_at(ports: &[Port], places: &[Option<usize>], signal: SignalNo) -> Option<Way>
    requires { PlacesAre ports.now places.now }
    ensures { result ≡ way_of ports.now signal.0 }
{
    let place = (*places.get(signal.0 as usize)?)?;
    let port = ports.get(place)?;
    Some(port.way)
}
