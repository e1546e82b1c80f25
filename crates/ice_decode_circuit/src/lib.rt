//! The circuit in the bits of a chip, or the first fault for which they have none.
#![tactic(auto)]

mod contended;
mod decoding;
mod evaluation;
mod extras;
mod foreign;
mod memories;
mod pin_types;
mod rows;
mod tables;

pub use decoding::decode;
pub use memories::decode_taking;
