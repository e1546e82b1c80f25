//! Setting the bits of rows and of functions: each call sets exactly its own, and no other bit changes.
#![tactic(auto)]

mod ones;
mod settings;

pub use ones::{set_one, turn_on};
pub use settings::{Setting, set_all, turn_all_on};
