//! How a netlist is closed.
ghost use Rattle.std.specs.Prelude.{◌≡◌};
ghost use Rattle.ice_pads.specs.Closings.{open_closing};

use ice_net::Netlist;

/// Which ports of a netlist are seen from outside, and how many block RAMs the others are those of.
#[derive(Clone, Copy)]
pub struct Closing {
    /// How many ports are seen from outside: those that stand first.
    pub first: usize,
    /// How many block RAMs close the netlist. The ports of each stand behind those of the one before, in the order of a RAM's pins.
    pub rams: usize,
}

impl Closing {
    /// All ports are seen from outside, and no block RAM closes the netlist. Takes no memory.
    pub fn open(netlist: &Netlist) -> Closing
        ensures { result ≡ open_closing netlist.now }
    {
        Closing {
            first: netlist.ports().len(),
            rams: 0,
        }
    }
}
