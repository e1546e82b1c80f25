//! The ports that read their signals themselves.
ghost use Rattle.std.specs.Prelude.{◌≡◌, ◌<◌, ◌++◌, ◌∷◌, [], length, if◌then◌else◌, IfOk, OnOk};
ghost use Rattle.ice_check.specs.Sound.{AreBuffers};
ghost use Rattle.ice_cells.specs.Uses.{is_bare_way, is_bare_output, bare_outputs};

use ice_base::NoMemory;
use ice_check::Sound;
use ice_net::{Netlist, Port, Way};
use std::alloc::Global;

// Whether a port of that way reads its signal itself, by whether an SB_IO is there.
fn is_bare_way(way: Way, buffered: bool) -> bool
    ensures { result ≡ is_bare_way way buffered }
{
    match way {
        Way::Output => !buffered,
        Way::Input | Way::Both => false,
    }
}

// Whether it is an Output port without an SB_IO, by the first SB_IO at each signal.
fn is_bare(netlist: &Netlist, buffers: &[Option<usize>], port: Port) -> bool
    requires buffers { AreBuffers netlist.now buffers.now }
    requires within { port.signal.0 < length netlist.now.names }
    ensures { result ≡ is_bare_output netlist.now.cells port }
{
    is_bare_way(port.way, buffers[port.signal.0 as usize].is_some())
}

// Adds a port, where it is one of those.
fn keep(bare: &mut Vec<Port>, port: Port, is_bare: bool) -> Result<(), NoMemory>
    ensures { OnOk result (bare.new.items ≡ bare.old.items ++ (if is_bare then port ∷ [] else [])) }
{
    if is_bare {
        bare.push(port)?;
    }
    Ok(())
}

/// The Output ports without an SB_IO, which read their signals themselves.
///
/// # Errors
/// Want of memory alone.
pub fn bare_outputs(alloc: Global, sound: &Sound) -> Result<Vec<Port>, NoMemory>
    ensures { IfOk result (λ bare. bare.items ≡ bare_outputs sound.now) }
{
    let netlist = sound.netlist();
    let buffers = sound.buffers();
    let ports = netlist.ports();
    let mut bare = Vec::new(alloc);
    for port in ports {
        keep(&mut bare, *port, is_bare(netlist, buffers, *port))?;
    }
    Ok(bare)
}
