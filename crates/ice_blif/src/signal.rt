//! Signals and ports of a netlist, as their names appear.
ghost use Rattle.std.specs.Prelude.{◌≡◌, ◌<◌, ◌≤◌, length, OnOk, IfOk, IfErr};
ghost use Rattle.ice_blif.specs.declared.fault.BlifFault.TheVariants.{NoMemory as out_of_memory};
ghost use Rattle.ice_blif.specs.Answers.{Gives};
ghost use Rattle.ice_blif.specs.Grammar.{was_named, port_says, ports_say};
ghost use Rattle.ice_blif.specs.State.{named, signal_of};
ghost use Rattle.ice_blif.specs.Views.{words_left, lines_left};

use crate::BlifFault;
use crate::cursor::Cursor;
use crate::raw::RawNetlist;
use ice_base::SignalNo;
use ice_net::{Netlist, Way};

// The signal of a name that appears.
pub(crate) fn number(netlist: &mut Netlist, name: &[u8]) -> Result<SignalNo, BlifFault>
    ensures signal { IfOk result (λ signal. signal ≡ signal_of netlist.old name.now) }
    ensures named { OnOk result (netlist.new ≡ named netlist.old name.now) }
    ensures within { IfOk result (λ signal. signal.0 < length netlist.new.names) }
    ensures kept { length netlist.old.names ≤ length netlist.new.names }
    ensures cells { netlist.new.cells ≡ netlist.old.cells }
    ensures memory { IfErr result (λ e. e ≡ out_of_memory) }
{
    if !netlist.has_room_for_name() {
        return Err(BlifFault::NoMemory);
    }
    let signal = netlist.signal(name)?;
    Ok(signal)
}

// Whether a signal was named as a port of this way.
fn was_named(way: Way, port: Option<Way>) -> bool
    ensures { result ≡ was_named way port }
{
    match (way, port) {
        (_, None) | (Way::Input, Some(Way::Output)) | (Way::Output, Some(Way::Input)) => false,
        _ => true,
    }
}

// Names a port.
fn port(netlist: &mut RawNetlist, line: u32, way: Way, name: &[u8]) -> Result<(), BlifFault>
    ensures port { Gives (λ _. netlist.new) result (port_says line way netlist.old name.now) }
    ensures kept { OnOk result (length netlist.old.names ≤ length netlist.new.names) }
    ensures cells { OnOk result (netlist.new.cells ≡ netlist.old.cells) }
{
    let signal = netlist.number(name)?;
    if was_named(way, netlist.way_of(signal)) {
        return Err(BlifFault::PortTwice { line });
    }
    netlist.port(signal, way)?;
    Ok(())
}

// Names the ports of a line.
pub(crate) fn ports(
    netlist: &mut RawNetlist,
    line: u32,
    way: Way,
    words: &mut Cursor<'_>,
) -> Result<(), BlifFault>
    ensures ports { Gives (λ _. netlist.new) result
        (ports_say line way netlist.old (words_left words.old)) }
    ensures kept { OnOk result (length netlist.old.names ≤ length netlist.new.names) }
    ensures cells { OnOk result (netlist.new.cells ≡ netlist.old.cells) }
    ensures lines { lines_left words.new ≡ lines_left words.old }
{
    while let Some(name) = words.next_word() {
        port(netlist, line, way, name)?;
    }
    Ok(())
}
