//! Negotiated routing: the tree of a net, its sinks joined one by one, and, as definitions and laws, the rounds in which nets
//! that share a wire move until none is shared.
#![tactic(auto)]

mod fault;
mod kept;
pub mod laws;
mod stop;
mod tree;

pub use fault::{RouteFault, Routed};
pub use kept::Kept;
pub use stop::TreeStop;
pub use tree::tree_of;
