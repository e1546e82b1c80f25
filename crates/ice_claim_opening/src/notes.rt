//! What a worker notes of a net.
use ice_base::WireNo;

/// What became of a net that a worker claimed: it was kept whole, or it lost a wire and was given back whole.
#[derive(Clone, Copy, Debug)]
pub struct Note {
    /// The number of the net.
    pub net: u32,
    /// The wire that it lost, if it did.
    pub lost: Option<WireNo>,
}
