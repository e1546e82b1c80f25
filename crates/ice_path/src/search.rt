//! The search: labels are lowered from the tree on, and of the open wires the one is settled of which label and bound make
//! the least sum, until that is more than the label of the nearest target.
ghost use Rattle.std.specs.Prelude.{◌≡◌, ◌+◌, ◌*◌, ◌<◌, ◌≤◌, ◌^◌, ℕ, [], ◌∷◌, Bool, List, Option, length, slice_get, slice_set, true, false, IfSome, IfNone, Some, vec_capacity};
ghost use Rattle.ice_core.specs.Congestion.{ArePrices, price};
ghost use Rattle.ice_graph.specs.declared.edge.Edge.{Edge as GraphEdge};
ghost use Rattle.ice_base.specs.declared.number.WireNo.{WireNo as Wire};
ghost use Rattle.ice_graph.specs.Network.{AreBetween};
ghost use Rattle.ice_path.specs.Aims.{Fits, IsAim, bound_in, leads};
ghost use Rattle.ice_path.specs.Queue.{IsQueue, queue_len};
ghost use Rattle.ice_path.specs.Search.{AreExact, AtMost, IsNearest, IsNext, Lists, Lowers, Relaxes, Searches, Starts, Queues, Touches, is_beyond, nearest_after, open_edges, done, label};
ghost use Rattle.ice_path.specs.Walks.{AreSettled, InTree, IsCostTo, NoWalkTo};
ghost use Rattle.std.specs.List.{Contains};

use crate::aim::Aim;
use crate::queue::{Queue, next_open, push};
use ice_base::WireNo;
use ice_core::{MOST_PRICE, MOST_STEPS, MOST_WIRES, Prices};
use ice_graph::{Edge, Graph};

/// Gives the wire a label that is lower than the one that it has, and puts it into the queue.
#[tactic(auto, using(crate::proofs::Queueing::marked, crate::proofs::Queueing::lowers_by_set))]
pub fn mark(
    graph: &Graph,
    aim: &Aim,
    labels: &mut [Option<u64>],
    queue: &mut Queue,
    wire: u32,
    cost: u64,
)
    requires wires { length labels.old ≡ graph.now.wires }
    requires fits { Fits graph.now aim.now }
    requires cost { cost ≤ MOST_WIRES * MOST_PRICE }
    requires within { wire < length labels.old }
    requires leads { leads aim.now wire ≡ true }
    requires lower { (l : ℕ) → label labels.old wire ≡ Some l → cost < l }
    requires order { IsQueue queue.old }
    requires room { queue_len queue.old < queue.old.room }
    ensures labels { labels.new ≡ slice_set labels.old wire (Some cost) }
    ensures lowers { Lowers labels.old labels.new wire cost }
    ensures waits { (settled : List Bool)
        → Queues (bound_in graph.now aim.now) settled labels.old queue.old
        → Queues (bound_in graph.now aim.now) settled labels.new queue.new }
    ensures order { IsQueue queue.new }
    ensures len { queue_len queue.new ≡ queue_len queue.old + 1 }
    ensures capacity { queue.new.room ≡ queue.old.room }
{
    labels[wire as usize] = Some(cost);
    push(queue, cost + aim.bound(graph, WireNo(wire)), wire);
}

/// Lowers the label of a wire to this cost, unless it is no more than that.
#[tactic(auto, using(crate::proofs::Touching::touched_new, crate::proofs::Touching::touched_again, crate::proofs::Touching::room_left, crate::proofs::Touching::no_label, crate::proofs::Touching::one_label, crate::proofs::Relaxing::lowers_not))]
pub fn lower(
    graph: &Graph,
    aim: &Aim,
    labels: &mut [Option<u64>],
    touched: &mut Vec<u32>,
    queue: &mut Queue,
    wire: u32,
    cost: u64,
)
    requires wires { length labels.old ≡ graph.now.wires }
    requires fits { Fits graph.now aim.now }
    requires cost { cost ≤ MOST_WIRES * MOST_PRICE }
    requires within { wire < length labels.old }
    requires leads { leads aim.now wire ≡ true }
    requires order { IsQueue queue.old }
    requires room { queue_len queue.old < queue.old.room }
    requires touches { Touches labels.old touched.old.items }
    requires space { length labels.old ≤ vec_capacity touched.old }
    ensures lowers { Lowers labels.old labels.new wire cost }
    ensures waits { (settled : List Bool)
        → Queues (bound_in graph.now aim.now) settled labels.old queue.old
        → Queues (bound_in graph.now aim.now) settled labels.new queue.new }
    ensures order { IsQueue queue.new }
    ensures len { queue_len queue.new ≤ queue_len queue.old + 1 }
    ensures capacity { queue.new.room ≡ queue.old.room }
    ensures touches { Touches labels.new touched.new.items }
    ensures space { vec_capacity touched.new ≡ vec_capacity touched.old }
{
    let Some(label) = labels[wire as usize] else {
        touched.push_reserved(wire);
        mark(graph, aim, labels, queue, wire, cost);
        return;
    };
    if label <= cost {
        return;
    }
    mark(graph, aim, labels, queue, wire, cost);
}

// Whether the wire has a label that is no more than this cost.
fn is_reached(labels: &[Option<u64>], wire: u32, cost: u64) -> bool
    requires within { wire < length labels.now }
    ensures reached { result ≡ true → AtMost labels.now wire cost }
{
    let Some(label) = labels[wire as usize] else {
        return false;
    };
    label <= cost
}

// Lowers the label behind one row of a wire with the label `cost`. What has a label up to that costs no more, at any price.
#[tactic(auto, using(crate::proofs::Relaxing::relax_astray, crate::proofs::Relaxing::relax_skip, crate::proofs::Relaxing::relax_reached, crate::proofs::Relaxing::relax_step))]
fn relax_one(
    graph: &Graph,
    aim: &Aim,
    row: Edge,
    prices: &Prices,
    settled: &[bool],
    cost: u64,
    labels: &mut [Option<u64>],
    touched: &mut Vec<u32>,
    queue: &mut Queue,
)
    requires wires { length labels.old ≡ graph.now.wires }
    requires fits { Fits graph.now aim.now }
    requires row { row.to.0 < length labels.old }
    requires prices { ArePrices prices.now }
    requires lengths { (length prices.now.history.items ≡ length labels.old)
        × (length settled.now ≡ length labels.old) }
    requires cost { cost ≤ MOST_STEPS * MOST_PRICE }
    requires order { IsQueue queue.old }
    requires room { queue_len queue.old < queue.old.room }
    requires touches { Touches labels.old touched.old.items }
    requires space { length labels.old ≤ vec_capacity touched.old }
    ensures relaxes { (rows : List GraphEdge) (k : ℕ) (first : List (Option ℕ))
        → slice_get rows k ≡ Some row
        → Relaxes rows (price prices.now) (leads aim.now) settled.now cost k first labels.old
        → Relaxes rows (price prices.now) (leads aim.now) settled.now cost (k + 1)
        first labels.new }
    ensures waits { (now : List Bool) → Queues (bound_in graph.now aim.now) now labels.old queue.old
        → Queues (bound_in graph.now aim.now) now labels.new queue.new }
    ensures order { IsQueue queue.new }
    ensures len { queue_len queue.new ≤ queue_len queue.old + 1 }
    ensures capacity { queue.new.room ≡ queue.old.room }
    ensures touches { Touches labels.new touched.new.items }
    ensures space { vec_capacity touched.new ≡ vec_capacity touched.old }
{
    if !aim.leads(row.to) {
        return;
    }
    if settled[row.to.0 as usize] {
        return;
    }
    if is_reached(labels, row.to.0, cost) {
        return;
    }
    lower(
        graph,
        aim,
        labels,
        touched,
        queue,
        row.to.0,
        cost + prices.of(row.to),
    );
}

// Lowers the labels behind the rows of a wire with the label `cost`.
#[tactic(auto, using(crate::proofs::Relaxing::relax_none))]
fn relax(
    graph: &Graph,
    aim: &Aim,
    rows: &[Edge],
    prices: &Prices,
    settled: &[bool],
    cost: u64,
    labels: &mut [Option<u64>],
    touched: &mut Vec<u32>,
    queue: &mut Queue,
)
    requires wires { length labels.old ≡ graph.now.wires }
    requires fits { Fits graph.now aim.now }
    requires rows { (k : ℕ) (e : GraphEdge) → slice_get rows.now k ≡ Some e
        → e.to.0 < length labels.old }
    requires prices { ArePrices prices.now }
    requires lengths { (length prices.now.history.items ≡ length labels.old)
        × (length settled.now ≡ length labels.old) }
    requires cost { cost ≤ MOST_STEPS * MOST_PRICE }
    requires order { IsQueue queue.old }
    requires room { queue_len queue.old + length rows.now ≤ queue.old.room }
    requires touches { Touches labels.old touched.old.items }
    requires space { length labels.old ≤ vec_capacity touched.old }
    requires waits { Queues (bound_in graph.now aim.now) settled.now labels.old queue.old }
    ensures relaxes { Relaxes rows.now (price prices.now) (leads aim.now) settled.now cost
        (length rows.now) labels.old labels.new }
    ensures waits { Queues (bound_in graph.now aim.now) settled.now labels.new queue.new }
    ensures order { IsQueue queue.new }
    ensures len { queue_len queue.new ≤ queue_len queue.old + length rows.now }
    ensures capacity { queue.new.room ≡ queue.old.room }
    ensures touches { Touches labels.new touched.new.items }
    ensures space { vec_capacity touched.new ≡ vec_capacity touched.old }
{
    for row in rows {
        relax_one(
            graph, aim, *row, prices, settled, cost, labels, touched, queue,
        );
    }
}

// Settles the next wire, and lowers the labels behind its rows.
#[tactic(auto, using(crate::proofs::Settling::rows_to, crate::proofs::Settling::open_edges_set))]
fn settle(
    graph: &Graph,
    prices: &Prices,
    aim: &Aim,
    wire: u32,
    cost: u64,
    labels: &mut [Option<u64>],
    settled: &mut [bool],
    touched: &mut Vec<u32>,
    queue: &mut Queue,
)
    requires prices { ArePrices prices.now }
    requires lengths { (length prices.now.history.items ≡ graph.now.wires)
        × (length labels.old ≡ graph.now.wires) × (length settled.old ≡ graph.now.wires) }
    requires fits { Fits graph.now aim.now }
    requires between { AreBetween graph.now.wires graph.now.edges }
    requires aim { IsAim graph.now.edges (price prices.now) aim.now.targets.now
        (bound_in graph.now aim.now) (leads aim.now) }
    requires next { IsNext (bound_in graph.now aim.now) labels.old settled.old wire cost }
    requires wire { wire < graph.now.wires }
    requires cost { cost ≤ MOST_STEPS * MOST_PRICE }
    requires order { IsQueue queue.old }
    requires room { queue_len queue.old + open_edges settled.old graph.now.edges ≤ queue.old.room }
    requires touches { Touches labels.old touched.old.items }
    requires space { graph.now.wires ≤ vec_capacity touched.old }
    requires waits { Queues (bound_in graph.now aim.now) (slice_set settled.old wire true)
        labels.old queue.old }
    ensures settled { settled.new ≡ slice_set settled.old wire true }
    ensures fixed { (w : ℕ) → done settled.new w ≡ true → label labels.new w ≡ label labels.old w }
    ensures searches { (tree : List Wire) (count : ℕ)
        → Searches graph.now.edges (price prices.now) tree (bound_in graph.now aim.now)
        (leads aim.now) MOST_PRICE count labels.old settled.old
        → Searches graph.now.edges (price prices.now) tree (bound_in graph.now aim.now)
        (leads aim.now) MOST_PRICE (count + 1) labels.new settled.new }
    ensures waits { Queues (bound_in graph.now aim.now) settled.new labels.new queue.new }
    ensures order { IsQueue queue.new }
    ensures room { queue_len queue.new + open_edges settled.new graph.now.edges ≤ queue.new.room }
    ensures capacity { queue.new.room ≡ queue.old.room }
    ensures touches { Touches labels.new touched.new.items }
    ensures space { vec_capacity touched.new ≡ vec_capacity touched.old }
{
    settled[wire as usize] = true;
    relax(
        graph,
        aim,
        graph.rows_from(WireNo(wire)),
        prices,
        settled,
        cost,
        labels,
        touched,
        queue,
    );
}

// The label of a wire that has one.
fn label_of(labels: &[Option<u64>], wire: u32) -> u64
    requires { (l : ℕ) × (label labels.now wire ≡ Some l) }
    ensures { label labels.now wire ≡ Some result }
{
    match labels[wire as usize] {
        Some(label) => label,
        None => unreachable!(),
    }
}

// Whether the sum is more than the label of the nearest target.
fn is_past(nearest: Option<u64>, sum: u64) -> bool
    ensures { result ≡ is_beyond nearest sum }
{
    match nearest {
        Some(label) => label < sum,
        None => false,
    }
}

// The label of the nearest target once a wire of this label and this sum is settled. Only a target has the bound 0.
fn nearest_with(nearest: Option<u64>, cost: u64, sum: u64) -> Option<u64>
    ensures { result ≡ nearest_after nearest cost sum }
{
    if nearest.is_some() {
        return nearest;
    }
    if sum == cost { Some(cost) } else { None }
}

/// The least cost of a walk to one of the targets, from labels that only the tree has. Each wire is settled of which label
/// and bound make no more than that, and no other.
#[tactic(auto, using(crate::proofs::Ending::none_open, crate::proofs::Settling::open_edges_all))]
pub fn search(
    graph: &Graph,
    prices: &Prices,
    tree: &[WireNo],
    aim: &Aim,
    labels: &mut [Option<u64>],
    settled: &mut [bool],
    order: &mut Vec<WireNo>,
    touched: &mut Vec<u32>,
    queue: &mut Queue,
) -> Option<u64>
    requires prices { ArePrices prices.now }
    requires lengths { (length prices.now.history.items ≡ graph.now.wires)
        × (length labels.old ≡ graph.now.wires) × (length settled.old ≡ graph.now.wires) }
    requires fits { Fits graph.now aim.now }
    requires aim { IsAim graph.now.edges (price prices.now) aim.now.targets.now
        (bound_in graph.now aim.now) (leads aim.now) }
    requires starts { Starts tree.now (leads aim.now) (length tree.now) labels.old settled.old }
    requires listed { order.old.items ≡ [] }
    requires list { graph.now.wires ≤ vec_capacity order.old }
    requires order { IsQueue queue.old }
    requires room { queue_len queue.old + length graph.now.edges ≤ queue.old.room }
    requires touches { Touches labels.old touched.old.items }
    requires space { graph.now.wires ≤ vec_capacity touched.old }
    requires waits { Queues (bound_in graph.now aim.now) settled.old labels.old queue.old }
    ensures some { IfSome result
        (IsCostTo graph.now.edges (price prices.now) tree.now aim.now.targets.now) }
    ensures exact { IfSome result (λ c. AreExact graph.now.edges (price prices.now) tree.now
        (bound_in graph.now aim.now) c labels.new) }
    ensures settled { IfSome result (λ c. AreSettled graph.now.edges (price prices.now) tree.now
        (bound_in graph.now aim.now) c order.new.items) }
    ensures bound { IfSome result (λ c. c ≤ MOST_STEPS * MOST_PRICE) }
    ensures length { length labels.new ≡ length labels.old }
    ensures none { IfNone result (NoWalkTo graph.now.edges tree.now aim.now.targets.now) }
    ensures list { vec_capacity order.new ≡ vec_capacity order.old }
    ensures order { IsQueue queue.new }
    ensures capacity { queue.new.room ≡ queue.old.room }
    ensures touches { Touches labels.new touched.new.items }
    ensures space { vec_capacity touched.new ≡ vec_capacity touched.old }
    ensures closed { (w : ℕ) → done settled.new w ≡ true → Contains touched.new.items w }
{
    let (_tree, _edges) = (tree, graph.edges());
    let rounds = settled.len() + 1;
    let mut nearest = None;
    for _round in 0..rounds {
        let Some((wire, sum)) = next_open(graph, aim, queue, labels, settled) else {
            return nearest;
        };
        if is_past(nearest, sum) {
            return nearest;
        }
        let cost = label_of(labels, wire);
        nearest = nearest_with(nearest, cost, sum);
        order.push_reserved(WireNo(wire));
        settle(
            graph, prices, aim, wire, cost, labels, settled, touched, queue,
        );
    }
    unreachable!()
}
