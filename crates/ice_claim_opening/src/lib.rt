//! The opening before the rounds of routing: workers take whole nets, each wire exclusively, and each net is kept whole or given back whole.
#![tactic(auto)]

mod first;
mod notes;
mod whole_nets;
mod worker;
mod workers;

pub use ice_negotiate_defs::Kept;
pub use notes::Note;
pub use whole_nets::opening;
pub use worker::keep_nets;
