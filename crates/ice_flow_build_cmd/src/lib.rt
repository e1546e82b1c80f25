//! The command `build`: files are read, the netlist is built, and its text of bits is written, with the reports that are asked for.
#![tactic(auto)]

mod building;
mod ending;
mod files;
pub mod laws;
mod texts;

pub use building::build_files;
