//! The table of least hops.
ghost use Rattle.std.specs.Prelude.{◌≡◌, ◌+◌, ◌<◌, ◌≤◌, ℕ, [], Some, Option, List, length, IfOk, OnOk, IfSome, slice_get};
ghost use Rattle.ice_graph.specs.declared.edge.Edge.{Edge as GraphEdge};
ghost use Rattle.ice_base.specs.declared.number.WireNo.{WireNo as Wire};
ghost use Rattle.ice_graph.specs.Network.{AreBetween};
ghost use Rattle.ice_graph.specs.Hops.{AreColumns, AreHops, IsTable, set_at};

use crate::edge::Edge;
use crate::levels::{column_of, homes_of, levels_of};
use ice_base::{NoMemory, WireNo};
use std::alloc::Global;

/// How many rows lead at least from each wire to a wire of each set, for at most 256 sets. Each wire is in one set or in none.
#[derive(Drop)]
pub struct Hops {
    /// The set of each wire.
    pub sets: Vec<Option<u8>>,
    /// For each set a number for each wire: 255 where no walk leads to the set. An empty column says 0 of each wire.
    pub columns: Vec<Vec<u8>>,
}

// How many numbers a column of these levels has.
fn column_len(levels: &[Vec<u64>], sets: &[Option<u8>]) -> usize
    ensures none { length levels.now ≡ 0 → result ≡ 0 }
    ensures some { 0 < length levels.now → result ≡ length sets.now }
{
    if levels.is_empty() { 0 } else { sets.len() }
}

// Makes the columns of the next 64 sets, or of those that are left.
fn push_columns(
    alloc: Global,
    edges: &[Edge],
    sets: &[Option<u8>],
    count: usize,
    columns: &mut Vec<Vec<u8>>,
) -> Result<(), NoMemory>
    requires between { AreBetween (length sets.now) edges.now }
    requires left { length columns.old.items < count }
    requires columns { AreColumns edges.now sets.now columns.old.items }
    ensures columns { OnOk result (AreColumns edges.now sets.now columns.new.items) }
    ensures more { OnOk result (length columns.old.items < length columns.new.items) }
    ensures within { OnOk result (length columns.new.items ≤ count) }
{
    let first = columns.len();
    let homes = homes_of(alloc, sets, first)?;
    let levels = levels_of(alloc, edges, homes)?;
    let len = column_len(&levels, sets);
    for bit in 0..(count - first).min(64) {
        columns.push(column_of(alloc, &levels, len, bit as u32)?)?;
    }
    Ok(())
}

impl Hops {
    /// A table of no sets.
    pub fn none(alloc: Global) -> Hops
        ensures { (edges : List GraphEdge) → IsTable edges result }
    {
        Hops {
            sets: Vec::new(alloc),
            columns: Vec::new(alloc),
        }
    }

    /// The table of this many sets, at most 256. It answers `NoMemory` where it finds none.
    pub fn new(
        alloc: Global,
        edges: &[Edge],
        sets: Vec<Option<u8>>,
        count: usize,
    ) -> Result<Hops, NoMemory>
        requires { AreBetween (length sets.items) edges.now }
        ensures table { IfOk result (IsTable edges.now) }
        ensures sets { IfOk result (λ hops. hops.sets.items ≡ sets.items) }
        ensures count { IfOk result (λ hops. length hops.columns.items ≡ count) }
    {
        let mut columns = Vec::with_capacity(alloc, count)?;
        while columns.len() < count {
            push_columns(alloc, edges, &sets, count, &mut columns)?;
        }
        Ok(Hops { sets, columns })
    }

    // The set of the wire, if it is in one.
    fn set_of(&self, wire: WireNo) -> Option<u8>
        ensures { result ≡ set_at self.now.sets.items wire.0 }
    {
        match self.sets.get(wire.0 as usize) {
            Some(set) => *set,
            None => None,
        }
    }

    // The set in which all the targets are, if there is one.
    fn set_of_all(&self, targets: &[WireNo]) -> Option<u8>
        requires { 0 < length targets.now }
        ensures { IfSome result (λ s. (k : ℕ) (t : Wire) → slice_get targets.now k ≡ Some t
            → set_at self.now.sets.items t.0 ≡ Some s) }
    {
        let set = self.set_of(targets[0])?;
        for target in targets {
            if self.set_of(*target) != Some(set) {
                return None;
            }
        }
        Some(set)
    }

    /// How many rows lead at least from each wire to the targets, of which there is one at least: the column of their set.
    /// It is empty, and says nothing, where they are not all in one set.
    pub fn to(&self, targets: &[WireNo]) -> &[u8]
        requires { 0 < length targets.now }
        ensures { (edges : List GraphEdge) → IsTable edges self.now
            → AreHops edges targets.now result.now }
    {
        let Some(set) = self.set_of_all(targets) else {
            return &[];
        };
        match self.columns.get(set as usize) {
            Some(column) => column,
            None => &[],
        }
    }
}
