//! Chains of carries: which carry follows which, the first carry of each run, the runs, and the cells that take a signal into a
//! run's first carry and pass its last one on.
#![tactic(auto)]

mod chain;
mod feed;
mod follow;
mod head;
pub mod laws;
mod numbers;
mod run;

pub use feed::push_feeds;
pub use follow::find_follows;
pub use head::find_heads;
pub use numbers::numbers_by_cell;
pub use run::build_runs;
