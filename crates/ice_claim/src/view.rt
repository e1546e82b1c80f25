//! What a pass knows, for proofs alone (no value of `Pair`, `ClaimPart` or `ClaimView` is made), and what the table is told when it is made.
use ice_base::WireNo;
use std::collections::LinkedList;

/// A wire that a net took, or that it lost to another.
pub struct Pair {
    /// The number of the net.
    pub net: u32,
    /// The wire, by number.
    pub wire: u32,
}

/// What one pass did, the newest first, and whether it was answered None.
pub struct ClaimPart {
    /// The nets that it claimed.
    pub nets: LinkedList<u32>,
    /// The wires that it took and didn't give back, each with the net for which it did.
    pub taken: LinkedList<Pair>,
    /// The wires that it found taken, each with the net for which it wanted them.
    pub lost: LinkedList<Pair>,
    /// Whether it was answered None.
    pub ended: bool,
}

/// What a pass knows: the wires of each net, its standing, and its parts, its own first.
pub struct ClaimView {
    /// The wires of each net, by number.
    pub lists: LinkedList<LinkedList<u32>>,
    /// 1 in the main view.
    pub main: u64,
    /// 1 in another view that isn't spent.
    pub worker: u64,
    /// In the main view the number of other views that aren't spent.
    pub out: u64,
    /// In the main view the number of splits made.
    pub splits: u64,
    /// What it did, and then what the passes did that it took in.
    pub parts: LinkedList<ClaimPart>,
}

/// What the table is made for. The rule reads it.
#[derive(Drop)]
pub struct ClaimLists {
    /// The wires of each net, by number.
    pub of_nets: Vec<Vec<WireNo>>,
    /// How many wires there are.
    pub wires: u32,
}
