//! One round of routing: workers in threads do all tasks on the words that they share.
#![tactic(auto)]

mod jobs;
pub mod laws;
mod moving;
mod placing;
mod playing;
mod raising;
mod tasks;

pub use moving::{Round, play};
pub use raising::raise;
