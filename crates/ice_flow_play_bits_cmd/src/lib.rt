//! The command `play-bits`: what a configured chip drives at the pads of a package, step by step, for the levels of a text.
#![tactic(auto)]

mod play;

pub use play::play_bits;
