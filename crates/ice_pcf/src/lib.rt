//! The reader of pin constraints (PCF): which port of a netlist goes to which pin of a package.
#![tactic(auto)]

mod constraint;
mod fault;
mod laws;
mod pcf;
mod reading;

pub use constraint::Constraint;
pub use fault::PcfFault;
pub use laws::says_constraints_or_first_fault;
pub use pcf::Pcf;
pub use reading::read_pcf;
