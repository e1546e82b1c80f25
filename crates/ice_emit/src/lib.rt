//! The bit writer: the bits of a placed and routed design, and what they mean.
#![tactic(auto)]

mod arriving;
mod clusters;
mod contents;
mod extras;
mod links;
mod owners;
mod routed;
mod rows;
mod writing;

pub use ice_emit_nets::nets_of;
pub use writing::{emit, emit_by};
