//! Texts of levels and texts of drives: what is played, and what is shown.
#![tactic(auto)]

mod drives;
mod fault;
mod levels;
mod reading;

pub use drives::put_drives;
pub use fault::LevelFault;
pub use levels::{LevelSteps, Levels};
pub use reading::read_levels;
