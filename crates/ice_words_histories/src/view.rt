//! What a hand on histories knows, for proofs alone: no value of these types is made, but of the old histories.
use std::collections::LinkedList;

/// A wire's history was raised.
pub struct Bump {
    /// The wire, by number.
    pub wire: u32,
    /// By how much.
    pub by: u32,
}

/// What one hand did: the blocks that it claimed and its bumps, the newest first, and whether it was answered None.
pub struct HistoryPart {
    /// The blocks that it claimed, the newest first.
    pub blocks: LinkedList<u32>,
    /// Its bumps, the newest first.
    pub bumps: LinkedList<Bump>,
    /// Whether it was answered None.
    pub ended: bool,
}

/// What a hand knows: the old histories, its standing, and its parts, its own first.
pub struct HistoryView {
    /// The histories as the raising began.
    pub histories: LinkedList<u64>,
    /// 1 in the main view.
    pub main: u64,
    /// 1 in another view that isn't spent.
    pub worker: u64,
    /// In the main view the number of other views that aren't spent.
    pub out: u64,
    /// In the main view the number of splits made.
    pub splits: u64,
    /// What it did, and then what the hands did that it took in.
    pub parts: LinkedList<HistoryPart>,
}

/// What the words begin with. The rule reads it.
#[derive(Drop)]
pub struct OldHistories {
    /// The history of each wire.
    pub of_wires: Vec<u64>,
}
