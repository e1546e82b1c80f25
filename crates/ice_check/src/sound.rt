//! Sound netlists.
ghost use Rattle.std.specs.Prelude.{◌≡◌, ℕ, List, length};
ghost use Rattle.ice_base_values.specs.Order.{IsOrder};
ghost use Rattle.ice_net.specs.Formed.{IsFormed, IsSingle};
ghost use Rattle.ice_net.specs.Meaning.{depends_on};
ghost use Rattle.ice_check.specs.Tables.{AreDrivers};
ghost use Rattle.ice_check.specs.Loops.{cells_before};
ghost use Rattle.ice_check.specs.Sound.{IsSound, IsChecked, AreBuffers};

use crate::drivers::SignalTables;
use ice_net::{Netlist, SignalDriver};
use std::marker::Model;

/// Orders of evaluation of a netlist.
#[derive(Drop)]
pub(crate) struct Orders {
    /// Its cells: each after the cells whose outputs its own output depends on.
    pub(crate) cells: Vec<u32>,
    /// Its signals: each after the signals that it depends on.
    pub(crate) signals: Vec<usize>,
}

/// A sound netlist, with what is known of it: an order of its cells and one of its signals, what drives each signal, and where
/// its SB_IO is. Contracts see the netlist.
#[derive(Drop)]
pub struct Sound {
    netlist: Netlist,
    orders: Orders,
    tables: SignalTables,
}

impl Model for Sound {
    ghost use Rattle.ice_net.specs.NetlistData.{NetlistData};
    ghost use Rattle.ice_check.specs.Sound.{IsChecked};

    ghost Value = { NetlistData };

    ghost view = { λ s. s.netlist };

    ghost invariant = { λ s. IsChecked s.netlist s.orders.cells.items s.orders.signals.items
        s.tables.drivers.items s.tables.buffers.items };
}

impl Sound {
    /// The netlist. Takes no memory, as the other readers.
    pub fn netlist(&self) -> &Netlist
        ensures netlist { result.now ≡ self.now }
        ensures sound { IsSound self.now }
    {
        &self.netlist
    }

    /// The netlist has no fault, and its signals have an order of evaluation.
    pub fn is_sound(&self)
        ensures formed { IsFormed self.now }
        ensures single { IsSingle self.now }
        ensures sound { IsSound self.now }
        ensures ordered { (order : List ℕ)
            × IsOrder (length self.now.names) (depends_on self.now) order }
    {
        self.netlist.is_formed();
    }

    /// The cells in an order of evaluation: each after the cells whose outputs its own output depends on.
    pub fn order(&self) -> &[u32]
        ensures { IsOrder (length self.now.cells) (cells_before self.now) result.now }
    {
        self.orders.cells.as_slice()
    }

    /// The signals in an order of evaluation: each after the signals that it depends on.
    pub fn signal_order(&self) -> &[usize]
        ensures { IsOrder (length self.now.names) (depends_on self.now) result.now }
    {
        self.orders.signals.as_slice()
    }

    /// What drives each signal, by its number.
    pub fn drivers(&self) -> &[SignalDriver]
        ensures { AreDrivers self.now result.now }
    {
        self.tables.drivers.as_slice()
    }

    /// The place of the first SB_IO at each signal in the list of cells, by the signal's number.
    pub fn buffers(&self) -> &[Option<usize>]
        ensures { AreBuffers self.now result.now }
    {
        self.tables.buffers.as_slice()
    }

    /// The netlist alone. It takes no memory.
    pub fn into_netlist(self) -> Netlist
        ensures { result ≡ self }
    {
        self.netlist
    }

    // A sound netlist with what was found of it.
    pub(crate) fn of(netlist: Netlist, orders: Orders, tables: SignalTables) -> Sound
        requires { IsChecked netlist orders.cells.items orders.signals.items
            tables.drivers.items tables.buffers.items }
        ensures { result ≡ netlist }
    {
        Sound {
            netlist,
            orders,
            tables,
        }
    }
}
