//! Tasks of a round.
use ice_base::{NetNo, Sink, WireNo};

/// A net that moves in a round: it gets a new route in the place of its old one.
#[derive(Drop)]
pub struct Task {
    /// The number of the net.
    pub net: NetNo,
    /// The wire from which it is driven.
    pub root: WireNo,
    /// The sinks, in the order in which they are joined.
    pub sinks: Vec<Sink>,
    /// The wires of its old route, none of them twice.
    pub old: Vec<WireNo>,
}
