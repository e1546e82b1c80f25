//! What the steps of workers in a round come to: each is the event of its name in the core, and the events of a round make its trees.
#![tactic(auto)]

mod laws;

pub use laws::{steps_are_events, the_core_plays_rounds};
