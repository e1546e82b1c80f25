//! The laws of chips: what the look-ups of every chip owe one another, the look-ups of pins that rest on them, and which
//! rows the faults of names and pins tell.
#![tactic(auto)]

mod example;
mod fault_laws;
mod laws;
mod pins;

pub use example::worked_example;
pub use fault_laws::{name_of_two_wires_is_first, shared_pin_is_first};
pub use laws::{chip_is_lawful, lookups_are_lawful};
pub use pins::{is_pin_name, pin_of};
