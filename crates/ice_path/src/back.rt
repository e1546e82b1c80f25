//! Walking back from the target of a search to the tree.
ghost use Rattle.std.specs.Prelude.{◌≡◌, ◌+◌, ◌<◌, ◌≤◌, ℕ, [], List, Option, Some, length, slice_get, vec_capacity, IfSome, OnSome};
ghost use Rattle.ice_core.specs.Congestion.{ArePrices, price};
ghost use Rattle.ice_graph.specs.declared.edge.Edge.{Edge as GraphEdge};
ghost use Rattle.ice_path.specs.Search.{AreExact, AreExactBehind, IsFirstFrom, IsFirstLabelled, label};
ghost use Rattle.ice_path.specs.Aims.{IsAim, bound_in, leads};
ghost use Rattle.ice_path.specs.Room.{AreWires};
ghost use Rattle.ice_path.specs.Walks.{IsCostTo, IsLabel};
ghost use Rattle.ice_path.specs.Paths.{IsStepBack, IsTaken, IsTakenTo, IsTargetTaken};

use crate::aim::Aim;
use ice_base::WireNo;
use ice_core::Prices;
use ice_graph::{Edge, Graph};

// The first of the rows whose source has this label.
fn first_from(rows: &[Edge], labels: &[Option<u64>], cost: u64) -> Option<Edge>
    requires within { (k : ℕ) (e : GraphEdge) → slice_get rows.now k ≡ Some e
        → e.from.0 < length labels.now }
    ensures { IsFirstFrom labels.now cost rows.now result }
{
    for row in rows {
        if labels[row.from.0 as usize] == Some(cost) {
            return Some(*row);
        }
    }
    None
}

// The step back from a wire of this label, which is not 0, with the label of its source.
fn step_back(
    graph: &Graph,
    prices: &Prices,
    tree: &[WireNo],
    labels: &[Option<u64>],
    wire: u32,
    cost: u64,
) -> (Edge, u64)
    requires prices { ArePrices prices.now }
    requires lengths { (length prices.now.history.items ≡ graph.now.wires)
        × (length labels.now ≡ graph.now.wires) }
    requires wire { wire < graph.now.wires }
    requires label { IsLabel graph.now.edges (price prices.now) tree.now wire cost }
    requires exact { AreExactBehind graph.now.edges (price prices.now) tree.now labels.now
        wire cost }
    requires positive { 0 < cost }
    ensures step { IsStepBack graph.now.edges (price prices.now) tree.now wire result.0 }
    ensures source { IsLabel graph.now.edges (price prices.now) tree.now result.0.from.0 result.1 }
    ensures exact { AreExactBehind graph.now.edges (price prices.now) tree.now labels.now
        result.0.from.0 result.1 }
    ensures labelled { label labels.now result.0.from.0 ≡ Some result.1 }
    ensures less { result.1 < cost }
    ensures within { result.0.from.0 < graph.now.wires }
{
    let (_tree, _edges) = (tree, graph.edges());
    let before = cost - prices.of(WireNo(wire));
    let Some(row) = first_from(graph.rows_into(WireNo(wire)), labels, before) else {
        unreachable!()
    };
    (row, before)
}

// Appends the taken path to the target, which has this label.
fn walk_back(
    graph: &Graph,
    prices: &Prices,
    tree: &[WireNo],
    labels: &[Option<u64>],
    target: u32,
    cost: u64,
    path: &mut Vec<Edge>,
)
    requires prices { ArePrices prices.now }
    requires lengths { (length prices.now.history.items ≡ graph.now.wires)
        × (length labels.now ≡ graph.now.wires) }
    requires target { target < graph.now.wires }
    requires label { IsLabel graph.now.edges (price prices.now) tree.now target cost }
    requires exact { AreExactBehind graph.now.edges (price prices.now) tree.now labels.now
        target cost }
    requires path { path.old.items ≡ [] }
    requires space { graph.now.wires ≤ vec_capacity path.old }
    ensures taken { IsTaken graph.now.edges (price prices.now) tree.now target path.new.items }
    ensures space { vec_capacity path.new ≡ vec_capacity path.old }
{
    let (mut wire, mut rest) = (target, cost);
    while rest > 0 {
        let (row, before) = step_back(graph, prices, tree, labels, wire, rest);
        path.push_reserved(row);
        wire = row.from.0;
        rest = before;
    }
    path.reverse();
}

// The first of the targets that has this label.
fn first_labelled(targets: &[WireNo], labels: &[Option<u64>], cost: u64) -> Option<WireNo>
    requires within { AreWires (length labels.now) targets.now }
    ensures { IsFirstLabelled labels.now cost targets.now result }
{
    for target in targets {
        if labels[target.0 as usize] == Some(cost) {
            return Some(*target);
        }
    }
    None
}

// The target taken, where this is the cost of the sink.
fn taken_target(
    graph: &Graph,
    prices: &Prices,
    tree: &[WireNo],
    aim: &Aim,
    labels: &[Option<u64>],
    cost: u64,
) -> WireNo
    requires lengths { length labels.now ≡ graph.now.wires }
    requires targets { AreWires graph.now.wires aim.now.targets.now }
    requires aim { IsAim graph.now.edges (price prices.now) aim.now.targets.now
        (bound_in graph.now aim.now) (leads aim.now) }
    requires cost { IsCostTo graph.now.edges (price prices.now) tree.now aim.now.targets.now cost }
    requires exact { AreExact graph.now.edges (price prices.now) tree.now
        (bound_in graph.now aim.now) cost labels.now }
    ensures { IsTargetTaken graph.now.edges (price prices.now) tree.now aim.now.targets.now
        result cost }
{
    let (_graph, _prices, _tree) = (graph, prices, tree);
    let Some(target) = first_labelled(aim.targets, labels, cost) else {
        unreachable!()
    };
    target
}

// Appends the taken path to the targets, where there is one.
pub fn take_path(
    graph: &Graph,
    prices: &Prices,
    tree: &[WireNo],
    aim: &Aim,
    labels: &[Option<u64>],
    cost: Option<u64>,
    path: &mut Vec<Edge>,
)
    requires prices { ArePrices prices.now }
    requires lengths { (length prices.now.history.items ≡ graph.now.wires)
        × (length labels.now ≡ graph.now.wires) }
    requires targets { AreWires graph.now.wires aim.now.targets.now }
    requires aim { IsAim graph.now.edges (price prices.now) aim.now.targets.now
        (bound_in graph.now aim.now) (leads aim.now) }
    requires cost { IfSome cost
        (IsCostTo graph.now.edges (price prices.now) tree.now aim.now.targets.now) }
    requires exact { IfSome cost (λ c. AreExact graph.now.edges (price prices.now) tree.now
        (bound_in graph.now aim.now) c labels.now) }
    requires path { path.old.items ≡ [] }
    requires space { graph.now.wires ≤ vec_capacity path.old }
    ensures taken { OnSome cost
        (IsTakenTo graph.now.edges (price prices.now) tree.now aim.now.targets.now path.new.items) }
    ensures space { vec_capacity path.new ≡ vec_capacity path.old }
{
    let Some(cost) = cost else {
        return;
    };
    graph.is_graph();
    let target = taken_target(graph, prices, tree, aim, labels, cost);
    walk_back(graph, prices, tree, labels, target.0, cost, path);
}
