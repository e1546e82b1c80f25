//! The ports of a netlist.

use ice_base::SignalNo;

/// The way of a port, as seen from outside.
#[derive(Clone, Copy, PartialEq, Eq)]
pub enum Way {
    /// The signal comes in.
    Input,
    /// The signal goes out.
    Output,
    /// The signal is named both as an input and as an output.
    Both,
}

/// A port: a signal that is seen outside.
#[derive(Clone, Copy, PartialEq, Eq)]
pub struct Port {
    /// The port's signal, whose name is the port's.
    pub signal: SignalNo,
    /// Whether it comes in, goes out or does both.
    pub way: Way,
}
