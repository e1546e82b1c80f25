//! What the points of a configured chip read: the root of each wire, found once, and the signals of roots. The netlist that has these
//! signals is made in `ice_back`.
#![tactic(auto)]

mod configured;
mod feeding;
mod filling;
mod heard;
mod roots;

pub use configured::ConfiguredChip;
pub use roots::{cell_table, table_root};
