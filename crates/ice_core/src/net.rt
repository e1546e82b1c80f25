//! Nets to be routed.
use ice_base::{NetNo, Sink, WireNo};

/// A net: the wire that drives it, and the sinks that it has to reach, each at one of its targets.
#[derive(Drop)]
pub struct Net {
    /// The number of the net.
    pub net: NetNo,
    /// The wire from which it is driven.
    pub root: WireNo,
    /// The sinks, in the order in which they are joined.
    pub sinks: Vec<Sink>,
}
