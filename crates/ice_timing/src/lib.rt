//! The longest path of a configured chip: when a signal arrives at each of its points, and the path on which one takes longest from a
//! pad, a flip-flop or a block RAM to the next.
#![tactic(auto)]

mod arrivals;
mod delay;
mod end;
mod ends;
mod latest;
mod latest_end;
/// What is proved of paths.
pub mod laws;
mod longest_path;
mod text;

pub use arrivals::{Arrivals, arrivals_of};
pub use end::{Door, End, Entry, TimedPath};
pub use ice_timing_delays::{DelayFault, Delays, read_delays};
pub use longest_path::longest;
pub use text::path_text;
