//! Workers: each claims tasks and does them on the words that all of them share.
#![tactic(auto)]

mod kit;
pub mod laws;
mod lending;
mod steps;
mod stop;
mod worker;

pub use ice_worker_raise::raise_blocks;
pub use kit::Kit;
pub use stop::WorkStop;
pub use worker::work;
