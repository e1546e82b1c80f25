//! What a search knows of the way to its targets before it begins.
ghost use Rattle.std.specs.Prelude.{◌≡◌, ◌*◌, ◌<◌, ◌≤◌, Option, None, Some, true, max, slice_index, IfSome};
ghost use Rattle.ice_graph.specs.Network.{least_bound};
ghost use Rattle.ice_graph.specs.Hops.{said};
ghost use Rattle.ice_path.specs.Aims.{Fits, beyond_at, bound_in, leads, rest};
ghost use Rattle.ice_path.specs.Room.{AreWires};
ghost use Rattle.ice_path.specs.Search.{label};

use ice_base::WireNo;
use ice_core::MOST_PRICE;
use ice_graph::Graph;

/// The targets of a search, and what walks to them cost at least.
#[derive(Clone, Copy)]
pub struct Aim<'a> {
    /// The targets.
    pub targets: &'a [WireNo],
    /// Wires to which the graph's bound is taken, too, where there are some.
    pub guides: &'a [WireNo],
    /// Of each wire how many rows lead at least to a target: 255 where no walk leads there. Nothing is said beyond the end.
    pub hops: &'a [u8],
    /// Of each wire near a target what a walk from it to a target costs at least.
    pub near: &'a [Option<u64>],
    /// What a walk to a target costs at least from a wire that is not near, by how many rows it has at least; the last number
    /// holds for all beyond it. Where there is none, a walk costs as much as it has rows.
    pub beyond: &'a [u64],
}

// The number that a column has for a wire, or 0 beyond its end.
fn number_at(column: &[u8], wire: WireNo) -> u8
    ensures { result ≡ slice_index column.now wire.0 }
{
    match column.get(wire.0 as usize) {
        Some(number) => *number,
        None => 0,
    }
}

// What a walk costs at least that has at least so many rows.
fn cost_of(beyond: &[u64], rows: u64) -> u64
    ensures value { result ≡ beyond_at beyond.now rows }
{
    if beyond.is_empty() {
        return rows;
    }
    beyond[(rows as usize).min(beyond.len() - 1)]
}

// The label of a wire, if it has one.
fn label_at(labels: &[Option<u64>], wire: WireNo) -> Option<u64>
    ensures { result ≡ label labels.now wire.0 }
{
    match labels.get(wire.0 as usize) {
        Some(label) => *label,
        None => None,
    }
}

impl Aim<'_> {
    /// Whether a walk from the wire may lead to a target.
    pub fn leads(&self, wire: WireNo) -> bool
        ensures { result ≡ leads self.now wire.0 }
    {
        number_at(self.hops, wire) != 255
    }

    /// How many rows lead at least from the wire to a target, or None where no walk leads there.
    pub fn rest(&self, graph: &Graph, wire: WireNo) -> Option<u64>
        requires guides { AreWires graph.now.wires self.now.guides.now }
        requires wire { wire.0 < graph.now.wires }
        ensures rest { result ≡ rest graph.now self.now.hops.now self.now.guides.now wire.0 }
        ensures small { IfSome result (λ k. k ≤ 131071) }
    {
        let number = number_at(self.hops, wire);
        if number == 255 {
            return None;
        }
        if self.guides.is_empty() {
            return Some(number as u64);
        }
        Some((number as u64).max(graph.least_bound(wire, self.guides)))
    }

    /// What a walk to a target costs at least from a wire that leads on.
    pub fn bound(&self, graph: &Graph, wire: WireNo) -> u64
        requires fits { Fits graph.now self.now }
        requires wire { wire.0 < graph.now.wires }
        requires leads { leads self.now wire.0 ≡ true }
        ensures bound { result ≡ bound_in graph.now self.now wire.0 }
        ensures small { result ≤ 1024 * MOST_PRICE }
    {
        if let Some(cost) = label_at(self.near, wire) {
            return cost;
        }
        let Some(rows) = self.rest(graph, wire) else {
            unreachable!()
        };
        cost_of(self.beyond, rows)
    }
}
