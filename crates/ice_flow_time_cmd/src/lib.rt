//! The command `time`: the longest path of a configured chip, with the delays of a text.
#![tactic(auto)]

mod timing;

pub use timing::time;
