//! The report on pins, which says what pad each port has, and the report on routing, which says what happened in each round: the
//! lines of history and trees from which the prices of every round can be worked out again; and the summary of a sample.
#![tactic(auto)]

mod pins;
mod rounds;
mod samples;
mod text;

pub use pins::pin_report;
pub use rounds::route_report;
pub use samples::{Summary, sample_report};
