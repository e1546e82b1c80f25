//! Runs of configured chips that their block RAMs close, and what they drive as a text.
#![tactic(auto)]

mod pads;
mod playing;
mod run;
mod setups;

pub use playing::play_chip;
