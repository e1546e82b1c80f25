//! Graphs of wires and rows.
ghost use Rattle.std.specs.Prelude.{◌≡◌, ◌+◌, ◌<◌, ◌≤◌, ◌^◌, ℕ, Some, length, replicate, slice_get, IfOk, List};
ghost use Rattle.ice_base.specs.declared.number.WireNo.{WireNo as Wire};
ghost use Rattle.ice_graph.specs.Hops.{AreHops};
ghost use Rattle.ice_graph.specs.Rows.{rows_into, rows_from};
ghost use Rattle.ice_graph.specs.Boxes.{box_of, in_spreads};
ghost use Rattle.ice_graph.specs.Network.{ArePlaces, AreBetween, BoundsFall, RowsRise, bound, least_bound};
ghost use Rattle.ice_graph.specs.Nearest.{apart, nearest, nearest_from, bound_of};

use crate::boxes::{boxes_of, spread_of};
use crate::edge::{Edge, End};
use crate::extent::{Extent, distance};
use crate::index::EdgeIndex;
use crate::table::Hops;
use ice_base::{NoMemory, RowNo, TileAt, WireNo};
use std::alloc::Global;
use std::marker::Model;

/// Wires, and the edges between them in the order of their rows. The edges into a wire and from a wire
/// are found at once, in the order of their rows. By the places of the edges it is known how far two wires
/// are apart.
#[derive(Drop)]
pub struct Graph {
    wires: u32,
    edges: Vec<Edge>,
    into: EdgeIndex,
    from: EdgeIndex,
    boxes: Vec<Option<Extent>>,
    spread: u32,
    hops: Hops,
}

impl Model for Graph {
    ghost use Rattle.ice_graph.specs.Network.{Network};

    ghost Value = { Network };

    ghost use Rattle.ice_graph.specs.Network.{network_of, IsSorted};

    ghost view = { network_of };

    ghost invariant = { IsSorted };
}

// The number of a row, which has 32 bits.
fn number(row: RowNo) -> u32
    ensures value { result ≡ row.0 }
    ensures small { row.0 < 2 ^ 32 }
{
    row.0
}

// The number of edges. There are no more than rows that 32 bits can number.
#[tactic(auto, using(crate::proofs::Rising::no_more))]
fn number_of(edges: &[Edge]) -> usize
    requires { RowsRise edges.now }
    ensures number { result ≡ length edges.now }
    ensures few { length edges.now ≤ 2 ^ 32 }
{
    let Some(last) = edges.last() else {
        return 0;
    };
    let _row = number(last.row);
    edges.len()
}

// How far a target is in boxes of this half perimeter, rounded up.
fn in_spreads_of(spread: u32, distance: u32) -> u32
    requires spread { spread ≤ 131070 }
    requires distance { distance ≤ 131070 }
    ensures value { result ≡ in_spreads spread distance }
    ensures small { result ≤ 131070 }
{
    if spread == 0 {
        return 0;
    }
    (distance + (spread - 1)) / spread
}

// What a walk to a target costs at least that is so far.
fn bound_to(spread: u32, apart: u32) -> u64
    requires spread { spread ≤ 131070 }
    requires apart { apart ≤ 131071 }
    ensures bound { result ≡ bound_of spread apart }
    ensures small { result ≤ 131071 }
{
    if apart == 0 {
        return 0;
    }
    1 + in_spreads_of(spread, apart - 1) as u64
}

impl Graph {
    /// A graph of this many wires, numbered from 0, and of these edges, whose rows rise. All edges stand at
    /// the tile (0, 0). It answers `NoMemory` where it finds no memory for them.
    pub fn new(alloc: Global, wires: u32, edges: Vec<Edge>) -> Result<Graph, NoMemory>
        requires between { AreBetween wires edges.items }
        requires rise { RowsRise edges.items }
        ensures wires { IfOk result (λ graph. graph.wires ≡ wires) }
        ensures edges { IfOk result (λ graph. graph.edges ≡ edges.items) }
        ensures places { IfOk result (λ graph.
            ArePlaces graph (replicate (length edges.items) (record { x = 0; y = 0 }))) }
    {
        let places = vec![in alloc; TileAt { x: 0, y: 0 }; edges.len()]?;
        Graph::placed(alloc, wires, edges, places)
    }

    /// A graph of this many wires, numbered from 0, and of these edges, whose rows rise, each at the place of
    /// a tile. It answers `NoMemory` where it finds no memory for them.
    pub fn placed(
        alloc: Global,
        wires: u32,
        edges: Vec<Edge>,
        places: Vec<TileAt>,
    ) -> Result<Graph, NoMemory>
        requires between { AreBetween wires edges.items }
        requires rise { RowsRise edges.items }
        requires places { length places.items ≡ length edges.items }
        ensures wires { IfOk result (λ graph. graph.wires ≡ wires) }
        ensures edges { IfOk result (λ graph. graph.edges ≡ edges.items) }
        ensures places { IfOk result (λ graph. ArePlaces graph places.items) }
    {
        let _number = number_of(&edges);
        let into = EdgeIndex::new(alloc, End::Target, wires, &edges)?;
        let from = EdgeIndex::new(alloc, End::Source, wires, &edges)?;
        let boxes = boxes_of(alloc, wires, &edges, &places)?;
        let spread = spread_of(wires, &edges, &boxes);
        Ok(Graph {
            wires,
            edges,
            into,
            from,
            boxes,
            spread,
            hops: Hops::none(alloc),
        })
    }

    /// The number of the wires.
    pub fn wires(&self) -> u32
        ensures { result ≡ self.now.wires }
    {
        self.wires
    }

    /// The edges join wires of the graph, their rows rise, and the bound between two wires falls by at most 1 along each edge.
    pub fn is_graph(&self)
        ensures between { AreBetween self.now.wires self.now.edges }
        ensures rise { RowsRise self.now.edges }
        ensures few { length self.now.edges ≤ 2 ^ 32 }
        ensures bounds { BoundsFall self.now }
    {
        // What holds of a graph is known where a field is looked at.
        let _ = &self.edges;
    }

    /// The edges in the order of their rows.
    pub fn edges(&self) -> &[Edge]
        ensures edges { result.now ≡ self.now.edges }
        ensures between { AreBetween self.now.wires self.now.edges }
        ensures rise { RowsRise self.now.edges }
        ensures few { length self.now.edges ≤ 2 ^ 32 }
        ensures bounds { BoundsFall self.now }
    {
        &self.edges
    }

    /// The edges that drive the wire, in the order of their rows. The wire is one of the graph.
    pub fn rows_into(&self, wire: WireNo) -> &[Edge]
        requires { wire.0 < self.now.wires }
        ensures { result.now ≡ rows_into self.now.edges wire.0 }
    {
        self.into.rows(End::Target, self.wires, &self.edges, wire.0)
    }

    /// The edges that read the wire, in the order of their rows. The wire is one of the graph.
    pub fn rows_from(&self, wire: WireNo) -> &[Edge]
        requires { wire.0 < self.now.wires }
        ensures { result.now ≡ rows_from self.now.edges wire.0 }
    {
        self.from.rows(End::Source, self.wires, &self.edges, wire.0)
    }

    /// What a walk from one wire to another costs at least, where no step costs less than 1: 0 where they are
    /// the same, and else 1 and one more for each greatest half perimeter that lies between their boxes,
    /// rounded up. The wires are of the graph.
    #[tactic(auto, using(crate::proofs::Nearest::bound_by))]
    pub fn bound(&self, wire: WireNo, target: WireNo) -> u64
        requires wire { wire.0 < self.now.wires }
        requires target { target.0 < self.now.wires }
        ensures bound { result ≡ bound self.now wire.0 target.0 }
        ensures small { result ≤ 131071 }
    {
        bound_to(self.spread, self.apart(wire, target))
    }

    /// The box of the tiles at which the wire's rows stand: none where no row leads into the wire or from it, nor of what is no
    /// wire of the graph.
    pub fn extent(&self, wire: WireNo) -> Option<Extent>
        ensures { result ≡ box_of self.now.boxes wire.0 }
    {
        match self.boxes.get(wire.0 as usize) {
            Some(extent) => *extent,
            None => None,
        }
    }

    // How far a target is: 0 where it is the wire itself, and else 1 and the steps between the boxes.
    fn apart(&self, wire: WireNo, target: WireNo) -> u32
        requires wire { wire.0 < self.now.wires }
        requires target { target.0 < self.now.wires }
        ensures apart { result ≡ apart self.now wire.0 target.0 }
        ensures small { result ≤ 131071 }
    {
        if wire.0 == target.0 {
            return 0;
        }
        1 + distance(self.boxes[wire.0 as usize], self.boxes[target.0 as usize])
    }

    // How far the nearest of these targets is.
    fn nearest(&self, wire: WireNo, targets: &[WireNo]) -> u32
        requires wire { wire.0 < self.now.wires }
        requires targets { (k : ℕ) (t : Wire) → slice_get targets.now k ≡ Some t
            → t.0 < self.now.wires }
        requires some { 0 < length targets.now }
        ensures nearest { result ≡ nearest self.now targets.now wire.0 }
        ensures small { result ≤ 131071 }
    {
        let mut nearest = self.apart(wire, targets[0]);
        for target in &targets[1..] {
            nearest = nearest.min(self.apart(wire, *target));
        }
        nearest
    }

    /// The least of the bounds from a wire to these targets, of which there is one at least. The wires are of
    /// the graph.
    #[tactic(auto, using(crate::proofs::Nearest::least_by))]
    pub fn least_bound(&self, wire: WireNo, targets: &[WireNo]) -> u64
        requires wire { wire.0 < self.now.wires }
        requires targets { (k : ℕ) (t : Wire) → slice_get targets.now k ≡ Some t
            → t.0 < self.now.wires }
        requires some { 0 < length targets.now }
        ensures bound { result ≡ least_bound self.now targets.now wire.0 }
        ensures small { result ≤ 131071 }
    {
        bound_to(self.spread, self.nearest(wire, targets))
    }

    /// Has the graph know how many rows lead at least from each wire to each of so many sets of wires, of which each wire is
    /// in one or in none. It answers `NoMemory` where it finds none.
    pub fn aim(
        &mut self,
        alloc: Global,
        sets: Vec<Option<u8>>,
        count: usize,
    ) -> Result<(), NoMemory>
        requires { length sets.items ≡ self.old.wires }
        ensures { self.new ≡ self.old }
    {
        let hops = Hops::new(alloc, &self.edges, sets, count)?;
        self.hops = hops;
        Ok(())
    }

    /// How many rows lead at least from each wire to the targets, of which there is one at least.
    pub fn hops(&self, targets: &[WireNo]) -> &[u8]
        requires { 0 < length targets.now }
        ensures { AreHops self.now.edges targets.now result.now }
    {
        self.hops.to(targets)
    }
}
