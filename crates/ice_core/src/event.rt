//! What workers do to the counts of wires.
use ice_base::WireNo;

/// One step of one worker on what the workers of a round share.
#[derive(Clone, Copy, Debug)]
pub enum Event {
    /// The worker draws the next number, and has the task of that number to do, if there is one.
    Claim {
        /// The number of the worker, from 0.
        worker: u32,
    },
    /// The worker takes its task's old route off a wire.
    Release {
        /// The number of the worker, from 0.
        worker: u32,
        /// The wire.
        wire: WireNo,
    },
    /// The worker puts its task's new route on a wire.
    Hold {
        /// The number of the worker, from 0.
        worker: u32,
        /// The wire.
        wire: WireNo,
    },
    /// The worker adds its own number of overuses to the posted one, and begins again from 0.
    Post {
        /// The number of the worker, from 0.
        worker: u32,
        /// Whether it is the number of overuses that came, and not that of those that went.
        up: bool,
    },
}
