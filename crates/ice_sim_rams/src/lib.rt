//! Runs of netlists that RAMs close.
#![tactic(auto)]

mod playing;

pub use playing::play_closed;
