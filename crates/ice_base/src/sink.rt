//! What a net has to reach.
ghost use Rattle.std.specs.Prelude.{◌≡◌};

use crate::WireNo;
use std::marker::Model;

/// A sink of a net: the wires of the fabric of which the net has to reach one, in the order in which they are
/// preferred. Contracts see it as the list of them.
#[derive(Drop)]
pub struct Sink {
    targets: Vec<WireNo>,
}

impl Model for Sink {
    ghost use Rattle.std.specs.Prelude.{List};
    ghost use Rattle.ice_base.specs.declared.number.WireNo.{WireNo};

    ghost Value = { List WireNo };

    ghost view = { λ sink. sink.targets.items };
}

impl Sink {
    /// The sink with these targets. Takes no memory.
    pub fn from_targets(targets: Vec<WireNo>) -> Sink
        ensures { result ≡ targets.items }
    {
        Sink { targets }
    }

    /// The targets, in order.
    pub fn targets(&self) -> &[WireNo]
        ensures { result.now ≡ self.now }
    {
        self.targets.as_slice()
    }
}
