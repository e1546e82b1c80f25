//! The command `back`: a chip text and a text of bits are read, and the text of the netlist of the configured chip is written.
#![tactic(auto)]

mod command;
mod netlist_text;

pub use command::back_files;
