//! What the commands that build tell of a fault of building.
#![tactic(auto)]

mod causes;

pub use causes::cause_of;
