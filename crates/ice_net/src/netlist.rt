//! Netlists as they are built.
ghost use Rattle.std.specs.Prelude.{◌≡◌, ◌↔◌, ◌++◌, ◌∷◌, [], ◌<◌, ◌≤◌, length, slice_index_or, Some, None, option_map, position, bytes_eq, IfOk, IfSome, OnOk, OnErr, IsTrue};
ghost use Rattle.ice_base.specs.Lists.{with_name, number_of_name};
ghost use Rattle.ice_net.specs.NetlistData.{empty_netlist, with_port, port_at};
ghost use Rattle.ice_net.specs.Ways.{way_of};
ghost use Rattle.ice_net.specs.Formed.{IsFormed, IsFormedCell, IsSingle};

use crate::names::{find, number_of};
use crate::ports::{add_port, way_at};
use crate::{Cell, Port, Way};
use ice_base::{NoMemory, SignalNo};
use indexmap::IndexSet;
use std::alloc::Global;
use std::marker::Model;

/// The names that a netlist may have: up to this number.
pub const MOST_NAMES: u32 = 1_073_741_823;

/// The cells that a netlist may have: up to this number.
pub const MOST_CELLS: usize = 1_073_741_823;

/// The signals that a netlist may have where it is read from a text and placed: up to this number.
pub const MOST_SIGNALS: u32 = 65_534;

/// A netlist: the names of its signals in the order of their numbers, its ports and its cells. Each cell is well
/// formed. Contracts see it as a record of three lists.
#[derive(Drop)]
pub struct Netlist {
    names: IndexSet<Vec<u8>>,
    ports: Vec<Port>,
    // The place of each signal's port. None stands behind the end.
    places: Vec<Option<usize>>,
    cells: Vec<Cell>,
}

impl Model for Netlist {
    ghost use Rattle.ice_base.specs.Keys.{texts};
    ghost use Rattle.ice_net.specs.NetlistData.{NetlistData};
    ghost use Rattle.ice_net.specs.Formed.{IsIndexed};

    ghost Value = { NetlistData };

    ghost view = { λ n.
        record { names = texts n.names.keys; ports = n.ports.items; cells = n.cells.items } };

    ghost invariant = { λ n. IsIndexed
        (record { names = texts n.names.keys; ports = n.ports.items; cells = n.cells.items })
        n.places.items };
}

impl Netlist {
    /// The netlist without signals, ports and cells. It takes no memory.
    #[tactic(auto, using(crate::proofs::Single::empty_single))]
    pub fn new(alloc: Global) -> Netlist
        ensures { result ≡ empty_netlist }
    {
        Netlist {
            names: IndexSet::new(alloc),
            ports: Vec::new(alloc),
            places: Vec::new(alloc),
            cells: Vec::new(alloc),
        }
    }

    /// The number of names. It takes no memory.
    pub fn signals(&self) -> u32
        ensures count { result ≡ length self.now.names }
        ensures few { result ≤ MOST_NAMES }
    {
        self.names.len() as u32
    }

    /// Whether the netlist has room for one more name. It takes no memory.
    pub fn has_room_for_name(&self) -> bool
        ensures { IsTrue result ↔ (length self.now.names < MOST_NAMES) }
    {
        self.signals() < MOST_NAMES
    }

    /// Whether the netlist has room for one more cell. It takes no memory.
    pub fn has_room_for_cell(&self) -> bool
        ensures { IsTrue result ↔ (length self.now.cells < MOST_CELLS) }
    {
        self.cells.len() < MOST_CELLS
    }

    /// The number of a name; a new name goes last. After want of memory the netlist is as before.
    pub fn signal(&mut self, name: &[u8]) -> Result<SignalNo, NoMemory>
        requires { length self.old.names < MOST_NAMES }
        ensures number { IfOk result (λ signal. signal.0 ≡ number_of_name self.old.names name.now) }
        ensures appended { OnOk result
            (self.new ≡ record self.old { names = with_name self.old.names name.now }) }
        ensures within { IfOk result (λ signal. signal.0 < length self.new.names) }
        ensures kept { length self.old.names ≤ length self.new.names }
        ensures refused { OnErr result (self.new ≡ self.old) }
    {
        let alloc = *self.ports.allocator();
        let number = number_of(alloc, &mut self.names, name)?;
        Ok(SignalNo(number as u32))
    }

    /// The signal of a name; None exactly where no signal has it. It takes no memory.
    pub fn find(&self, name: &[u8]) -> Option<SignalNo>
        ensures place { option_map (λ signal. signal.0) result
            ≡ position (bytes_eq name.now) self.now.names }
        ensures within { IfSome result (λ signal. signal.0 < length self.now.names) }
    {
        let number = find(&self.names, name)?;
        Some(SignalNo(number as u32))
    }

    /// The name of a signal. It takes no memory.
    pub fn name(&self, signal: SignalNo) -> &[u8]
        requires { signal.0 < length self.now.names }
        ensures { result.now ≡ slice_index_or self.now.names signal.0 result.now }
    {
        self.names[signal.0 as usize].as_slice()
    }

    /// Makes a signal a port. A signal that is a port already becomes Both where the ways differ. After want of memory
    /// the netlist is as before.
    pub fn port(&mut self, signal: SignalNo, way: Way) -> Result<(), NoMemory>
        requires { signal.0 < length self.old.names }
        ensures added { OnOk result
            (self.new ≡ record self.old { ports = with_port self.old.ports signal way }) }
        ensures refused { OnErr result (self.new ≡ self.old) }
    {
        add_port(&mut self.ports, &mut self.places, signal, way)
    }

    /// The way of a signal's port; None exactly where the signal is no port. It takes no memory.
    pub fn way_of(&self, signal: SignalNo) -> Option<Way>
        ensures { result ≡ way_of self.now.ports signal.0 }
    {
        way_at(&self.ports, &self.places, signal)
    }

    /// Adds a cell behind the others. After want of memory the netlist is as before.
    pub fn cell(&mut self, cell: Cell) -> Result<(), NoMemory>
        requires room { length self.old.cells < MOST_CELLS }
        requires formed { IsFormedCell (length self.old.names) cell }
        ensures added { OnOk result
            (self.new ≡ record self.old { cells = self.old.cells ++ cell ∷ [] }) }
        ensures refused { OnErr result (self.new ≡ self.old) }
    {
        self.cells.push(cell)?;
        Ok(())
    }

    /// The netlist's ports and cells are over its own signals, and no name or port stands twice.
    pub fn is_formed(&self)
        ensures formed { IsFormed self.now }
        ensures single { IsSingle self.now }
    {
        // What holds of a netlist is known where a field is looked at.
        let _ = &self.cells;
    }

    /// The ports, in the order in which they were made.
    pub fn ports(&self) -> &[Port]
        ensures ports { result.now ≡ self.now.ports }
        ensures formed { IsFormed self.now }
        ensures single { IsSingle self.now }
    {
        self.ports.as_slice()
    }

    /// The cells, in the order in which they were added.
    pub fn cells(&self) -> &[Cell]
        ensures cells { result.now ≡ self.now.cells }
        ensures formed { IsFormed self.now }
    {
        self.cells.as_slice()
    }
}
