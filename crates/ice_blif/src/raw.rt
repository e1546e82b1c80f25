//! A netlist whose cells are as their lines say them.
ghost use Rattle.std.specs.Prelude.{◌≡◌, ◌<◌, ◌≤◌, length, All, OnOk, IfOk, IfErr};
ghost use Rattle.ice_net.specs.NetlistData.{empty_netlist, with_port};
ghost use Rattle.ice_net.specs.Ways.{way_of};
ghost use Rattle.ice_blif.specs.declared.fault.BlifFault.TheVariants.{NoMemory as out_of_memory};
ghost use Rattle.ice_blif.specs.Cells.{IsReadCell};
ghost use Rattle.ice_blif.specs.Registers.{without_cells};
ghost use Rattle.ice_blif.specs.State.{named, signal_of, with_cell};

use crate::BlifFault;
use crate::signal::number;
use ice_base::SignalNo;
use ice_net::{Cell, Netlist, Way};
use std::alloc::Global;
use std::marker::Model;

/// A netlist whose cells are as their lines say them: pads with a register are not taken apart, and one that feeds a global has
/// the global's output behind its own. Contracts see it as a netlist.
#[derive(Drop)]
pub(crate) struct RawNetlist {
    // The names and the ports.
    netlist: Netlist,
    cells: Vec<Cell>,
}

impl Model for RawNetlist {
    ghost use Rattle.ice_net.specs.NetlistData.{NetlistData};
    ghost use Rattle.ice_blif.specs.Cells.{IsRaw};

    ghost Value = { NetlistData };

    ghost view = { λ raw.
        record { names = raw.netlist.names; ports = raw.netlist.ports; cells = raw.cells.items } };

    ghost invariant = { λ raw. IsRaw raw.netlist raw.cells.items };
}

impl RawNetlist {
    /// The netlist without signals, ports and cells. It takes no memory.
    #[tactic(auto, using(crate::proofs::RawCells::empty_raw))]
    pub(crate) fn new(alloc: Global) -> RawNetlist
        ensures { result ≡ empty_netlist }
    {
        RawNetlist {
            netlist: Netlist::new(alloc),
            cells: Vec::new(alloc),
        }
    }

    /// The number of names.
    pub(crate) fn signals(&self) -> u32
        ensures { result ≡ length self.now.names }
    {
        self.netlist.signals()
    }

    /// The number of cells.
    pub(crate) fn cells_count(&self) -> usize
        ensures { result ≡ length self.now.cells }
    {
        self.cells.len()
    }

    /// The signal of a name that appears.
    pub(crate) fn number(&mut self, name: &[u8]) -> Result<SignalNo, BlifFault>
        ensures signal { IfOk result (λ signal. signal ≡ signal_of self.old name.now) }
        ensures named { OnOk result (self.new ≡ named self.old name.now) }
        ensures within { IfOk result (λ signal. signal.0 < length self.new.names) }
        ensures kept { length self.old.names ≤ length self.new.names }
        ensures memory { IfErr result (λ e. e ≡ out_of_memory) }
    {
        number(&mut self.netlist, name)
    }

    /// The way of a signal's port; None exactly where the signal is no port.
    pub(crate) fn way_of(&self, signal: SignalNo) -> Option<Way>
        ensures { result ≡ way_of self.now.ports signal.0 }
    {
        self.netlist.way_of(signal)
    }

    /// Makes a signal a port, or Both where it is a port of another way.
    pub(crate) fn port(&mut self, signal: SignalNo, way: Way) -> Result<(), BlifFault>
        requires { signal.0 < length self.old.names }
        ensures added { OnOk result
            (self.new ≡ record self.old { ports = with_port self.old.ports signal way }) }
        ensures memory { IfErr result (λ e. e ≡ out_of_memory) }
    {
        self.netlist.port(signal, way)?;
        Ok(())
    }

    /// Adds a cell behind the others.
    pub(crate) fn cell(&mut self, cell: Cell) -> Result<(), BlifFault>
        requires { IsReadCell (length self.old.names) cell }
        ensures added { OnOk result (self.new ≡ with_cell self.old cell) }
        ensures memory { IfErr result (λ e. e ≡ out_of_memory) }
    {
        self.cells.push(cell)?;
        Ok(())
    }

    /// The netlist of the names and the ports, and the cells.
    pub(crate) fn into_parts(self) -> (Netlist, Vec<Cell>)
        ensures netlist { result.0 ≡ without_cells self }
        ensures cells { result.1.items ≡ self.cells }
        ensures read { All (IsReadCell (length self.names)) self.cells }
    {
        (self.netlist, self.cells)
    }
}
