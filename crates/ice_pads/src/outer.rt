//! The ports of a netlist that are seen from outside, by their names, and their names.
ghost use Rattle.std.specs.Prelude.{◌≡◌, take, IfOk};
ghost use Rattle.ice_pads.specs.Closings.{with_first};
ghost use Rattle.ice_pads.specs.Constraints.{port_named, port_name};
ghost use Rattle.ice_pads.specs.Tables.{ArePlaces};

use crate::places::{places_of, port_name};
use ice_base::{Name, NoMemory};
use ice_net::{Netlist, Port};
use std::alloc::Global;

/// The ports of a netlist that are seen from outside.
#[derive(Clone, Copy)]
pub struct Outer<'a> {
    /// The netlist.
    pub netlist: &'a Netlist,
    /// How many of its ports are seen: those that stand first.
    pub first: usize,
}

// The ports.
fn ports_of<'a>(outer: &Outer<'a>) -> &'a [Port]
    ensures { result.now ≡ take outer.now.first outer.now.netlist.now.ports }
{
    let ports = outer.netlist.ports();
    &ports[..outer.first.min(ports.len())]
}

/// The place of the first of these ports of each signal; none stands behind the end.
pub fn outer_places(alloc: Global, outer: &Outer<'_>) -> Result<Vec<Option<usize>>, NoMemory>
    ensures { IfOk result (λ places.
        ArePlaces (with_first outer.now.first outer.now.netlist.now).ports places.items) }
{
    places_of(alloc, ports_of(outer))
}

/// The place of the port of a name; None exactly where no such port has it.
pub fn port_named(outer: &Outer<'_>, places: &[Option<usize>], name: &[u8]) -> Option<usize>
    requires { ArePlaces (with_first outer.now.first outer.now.netlist.now).ports places.now }
    ensures { result ≡ port_named (with_first outer.now.first outer.now.netlist.now) name.now }
{
    let signal = outer.netlist.find(name)?;
    *places.get(signal.0 as usize)?
}

/// The name of the port at a place; nothing where there is no such port.
pub fn outer_name(alloc: Global, outer: &Outer<'_>, place: usize) -> Result<Name, NoMemory>
    ensures { IfOk result (λ name.
        name ≡ port_name (with_first outer.now.first outer.now.netlist.now) place) }
{
    if place < outer.first {
        return port_name(alloc, outer.netlist, place);
    }
    Ok(Name::from_bytes(Vec::new(alloc)))
}
