//! The bits of a placed and routed design realise it.
#![tactic(auto)]

mod feeds;
/// What written bits mean, and where they have no loop.
pub mod laws;

pub use feeds::feeds_no_global;
