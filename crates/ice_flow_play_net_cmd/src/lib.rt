//! The command `play-net`: what the ports of a netlist drive, step by step, for the levels of a text.
#![tactic(auto)]

mod play;

pub use play::play_net;
