//! The RAMs of netlist texts, cut out of the netlist: each gets 74 ports behind the text's own, and covers that join these to its
//! signals. What lies between the ports is a RAM, which closes the netlist.
#![tactic(auto)]

mod apart;
mod clocks;
mod closed;
mod contents;
mod cutting;
mod laws;
mod ports;
mod ram_text;
mod reading;

pub use closed::{ClosedNetlist, read_closed_netlist};
pub use laws::closed_netlists_without_rams;
