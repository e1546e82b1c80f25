//! How often each signal is read.
ghost use Rattle.std.specs.Prelude.{◌≡◌, ◌++◌, length, map, IfOk, OnOk};
ghost use Rattle.std.specs.List.{flat_map};
ghost use Rattle.ice_net.specs.Formed.{IsFormed};
ghost use Rattle.ice_check.specs.Tables.{AreTimes};
ghost use Rattle.ice_carry_tails.specs.Ends.{all_read, ins_of, port_signal};

use ice_base::{NoMemory, SignalNo};
use ice_check::times_of;
use ice_net::{Cell, Netlist, Port};
use std::alloc::Global;

// The inputs, cell by cell.
fn all_ins(alloc: Global, cells: &[Cell]) -> Result<Vec<Option<SignalNo>>, NoMemory>
    ensures { IfOk result (λ list. list.items ≡ flat_map ins_of cells.now) }
{
    let mut list = Vec::new(alloc);
    for cell in cells {
        list.extend_from_slice(cell.ins.as_slice())?;
    }
    Ok(list)
}

// Adds the signals of ports.
fn add_ports(list: &mut Vec<Option<SignalNo>>, ports: &[Port]) -> Result<(), NoMemory>
    ensures { OnOk result (list.new.items ≡ list.old.items ++ map port_signal ports.now) }
{
    for port in ports {
        list.push(Some(port.signal))?;
    }
    Ok(())
}

// All that is read.
fn all_read(alloc: Global, netlist: &Netlist) -> Result<Vec<Option<SignalNo>>, NoMemory>
    ensures { IfOk result (λ list. list.items ≡ all_read netlist.now) }
{
    let mut list = all_ins(alloc, netlist.cells())?;
    add_ports(&mut list, netlist.ports())?;
    Ok(list)
}

/// How often each signal is read, by inputs and by ports.
///
/// # Errors
/// Want of memory alone.
#[tactic(auto, using(crate::proofs::ReadSignals::read_below))]
pub(crate) fn reads_of(alloc: Global, netlist: &Netlist) -> Result<Vec<usize>, NoMemory>
    requires { IsFormed netlist.now }
    ensures { IfOk result (λ table.
        AreTimes (length netlist.now.names) (all_read netlist.now) table.items) }
{
    let list = all_read(alloc, netlist)?;
    let table = times_of(alloc, netlist.signals() as usize, &list)?;
    Ok(table)
}
