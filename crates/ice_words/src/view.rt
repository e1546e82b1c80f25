//! What a hand knows, for proofs alone (no value of `Claim`, `Part` or `View` is made), and what a round begins with.
use ice_base::WireNo;
use std::collections::LinkedList;

/// One claim: the task, and which of its wires were released and held so far, in order.
pub struct Claim {
    /// The number of the task.
    pub task: u32,
    /// The wires that were released, by number.
    pub released: LinkedList<u32>,
    /// The wires that were held, by number.
    pub held: LinkedList<u32>,
}

/// What one hand did: its claims, the newest first, and whether it was answered None.
pub struct Part {
    /// The claims, the newest first.
    pub claims: LinkedList<Claim>,
    /// Whether it was answered None.
    pub ended: bool,
}

/// What a hand knows: the old wires of each task and the old counts, its standing, and its parts, its own first.
pub struct View {
    /// The old wires of each task, by number.
    pub olds: LinkedList<LinkedList<u32>>,
    /// The counts of the wires as the round began.
    pub counts: LinkedList<u32>,
    /// 1 in the main view.
    pub main: u64,
    /// 1 in another view that isn't spent.
    pub worker: u64,
    /// In the main view the number of other views that aren't spent.
    pub out: u64,
    /// In the main view the number of splits made.
    pub splits: u64,
    /// How often a hold found a wire held, and not posted yet.
    pub up: u64,
    /// How often a release left a wire held, and not posted yet.
    pub down: u64,
    /// What it did, and then what the hands did that it took in.
    pub parts: LinkedList<Part>,
}

/// What a round begins with: the old wires of each task, and the counts. The rule reads it.
#[derive(Drop)]
pub struct Opening {
    pub olds: Vec<Vec<WireNo>>,
    pub counts: Vec<u32>,
}
