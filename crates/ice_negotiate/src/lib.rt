//! Rounds of negotiated congestion, each by workers on shared words, until no wire is overused or until no more are permitted; also from an opening.
#![tactic(auto)]

mod logs;
mod rounds;
mod start;

pub use ice_negotiate_defs::{Kept, RouteFault, Routed};
pub use rounds::{negotiate, negotiate_from};
