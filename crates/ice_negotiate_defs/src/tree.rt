//! The tree of a net.
ghost use Rattle.std.specs.Prelude.{◌≡◌, ◌<◌, ◌++◌, ℕ, map, length, slice_get, Some, IfOk, IfErr, OnOk};
ghost use Rattle.ice_core.specs.Congestion.{ArePrices, price};
ghost use Rattle.ice_graph.specs.declared.edge.Edge.{Edge as GraphEdge};
ghost use Rattle.ice_path.specs.Paths.{IsTakenTo};
ghost use Rattle.ice_path.specs.Room.{IsFor, AreWires};
ghost use Rattle.ice_negotiate_defs.specs.Trees.{AreOnce, AreReached, AreSinks, IsCause, IsJoined, IsRooted, IsSinkReached, IsTree, StopsAt, route_of};

use crate::stop::TreeStop;
use ice_base::{NoMemory, Sink, WireNo};
use ice_core::Prices;
use ice_graph::{Edge, Graph, Tree};
use ice_path::{Scratch, connect_ahead, path};
use std::alloc::Global;

// Appends the wires that the edges enter, and their rows.
fn extend(tree: &mut Tree, edges: &[Edge]) -> Result<(), NoMemory>
    ensures wires { OnOk result
        (tree.new.wires.items ≡ tree.old.wires.items ++ map (λ (e : GraphEdge). e.to) edges.now) }
    ensures rows { OnOk result
        (tree.new.rows.items ≡ tree.old.rows.items ++ map (λ (e : GraphEdge). e.row) edges.now) }
{
    for edge in edges {
        tree.wires.push(edge.to)?;
        tree.rows.push(edge.row)?;
    }
    Ok(())
}

// Joins a sink with these targets to the tree by the taken path.
fn join(
    graph: &Graph,
    prices: &Prices,
    root: WireNo,
    targets: &[WireNo],
    tree: &mut Tree,
    scratch: &mut Scratch,
) -> Result<(), TreeStop>
    requires prices { ArePrices prices.now }
    requires wires { length prices.now.history.items ≡ graph.now.wires }
    requires targets { AreWires graph.now.wires targets.now }
    requires some { 0 < length targets.now }
    requires rooted { IsRooted graph.now root tree.old.wires.items }
    requires apart { AreOnce tree.old.wires.items }
    requires scratch { IsFor graph.now scratch.old }
    ensures joined { OnOk result (IsJoined graph.now.edges (price prices.now) (route_of tree.old)
        targets.now (route_of tree.new)) }
    ensures rooted { OnOk result (IsRooted graph.now root tree.new.wires.items) }
    ensures apart { OnOk result (AreOnce tree.new.wires.items) }
    ensures reached { OnOk result (IsSinkReached graph.now.edges root targets.now) }
    ensures stop { IfErr result (StopsAt graph.now.edges root targets.now) }
    ensures scratch { IsFor graph.now scratch.new }
{
    let (_root, _edges) = (root, graph.edges());
    let Some(_cost) = connect_ahead(graph, prices, tree, targets, scratch) else {
        return Err(TreeStop::Unreachable { sink: targets[0] });
    };
    extend(tree, path(scratch))?;
    Ok(())
}

/// The tree of a net: its sinks joined to the root one by one in order, each by the taken path from the tree
/// so far. A sink of which the tree holds a target already adds nothing, and no wire stands twice in the tree.
///
/// The scratch was made for this graph, the prices are for its wires, and root and targets are wires of the
/// graph. Each sink has a target. It answers `Unreachable` with the first target of the first sink to none of whose
/// targets a walk leads from the root, exactly where there is one, and `NoMemory` where it finds no memory for the
/// tree.
#[tactic(auto, using(crate::proofs::Joining::once_first))]
pub fn tree_of(
    alloc: Global,
    graph: &Graph,
    prices: &Prices,
    root: WireNo,
    sinks: &[Sink],
    scratch: &mut Scratch,
) -> Result<Tree, TreeStop>
    requires prices { ArePrices prices.now }
    requires wires { length prices.now.history.items ≡ graph.now.wires }
    requires root { root.0 < graph.now.wires }
    requires sinks { AreSinks graph.now.wires sinks.now }
    requires scratch { IsFor graph.now scratch.old }
    ensures tree { IfOk result (λ tree.
        IsTree graph.now.edges (price prices.now) root sinks.now (route_of tree)) }
    ensures rooted { IfOk result (λ tree. IsRooted graph.now root tree.wires.items) }
    ensures apart { IfOk result (λ tree. AreOnce tree.wires.items) }
    ensures reached { OnOk result (AreReached graph.now.edges root sinks.now) }
    ensures stop { IfErr result (IsCause graph.now.edges root sinks.now) }
    ensures scratch { IsFor graph.now scratch.new }
{
    let mut tree = Tree {
        wires: vec![in alloc; root]?,
        rows: Vec::new(alloc),
    };
    for sink in sinks {
        join(graph, prices, root, sink.targets(), &mut tree, scratch)?;
    }
    Ok(tree)
}
