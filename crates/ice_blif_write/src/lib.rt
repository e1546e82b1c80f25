//! The writer of netlists in the Berkeley logic interchange format (BLIF).
#![tactic(auto)]

mod cells;
mod formal;
mod laws;
mod line;
mod ports;
mod words;
mod write;

pub use laws::written_is_read;
pub use write::write_blif;
