//! The reader of netlists in the Berkeley logic interchange format (BLIF), with the lines that Yosys adds.
#![tactic(auto)]

mod cover;
mod cursor;
mod directive;
mod fault;
mod gate;
mod kind;
mod laws;
mod model;
mod parameter;
mod raw;
mod reader;
mod registers;
mod signal;
mod wiring;

pub use cursor::{Cursor, FirstWord};
pub use fault::BlifFault;
pub use gate::{equals_at, is_missing};
pub use laws::says_netlist_or_first_fault;
pub use model::read_blif;
pub use parameter::bits_in;
pub use registers::hidden_signal;
