//! Netlists: ports, and cells over named signals.
#![tactic(auto)]

mod cell;
mod driver;
mod formed;
mod kind;
mod kind_ports;
mod kind_words;
mod names;
mod netlist;
mod port;
mod ports;
mod signals;

pub use cell::Cell;
pub use driver::{Drive, SignalDriver};
pub use kind::{CellKind, Reset};
pub use kind_words::kind_named;
pub use netlist::{MOST_CELLS, MOST_NAMES, MOST_SIGNALS, Netlist};
pub use port::{Port, Way};
pub use ports::merged;
pub use signals::{Signals, signal_at};
