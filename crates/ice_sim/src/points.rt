//! Slots of the points of a configured chip.

use ice_sim_sweep::Feed;

/// The slot of a point.
#[derive(Clone, Copy)]
pub enum PointSlot {
    /// One that is there already: that of another point, or one that is always 0 or always 1.
    Shared(u32),
    /// One of its own, with what feeds it.
    Own(Feed),
}
