//! Looking back from the targets by price: which wires are near them, and what walks to them cost at least from there and from
//! elsewhere.
ghost use Rattle.std.specs.Prelude.{◌≡◌, ◌+◌, ◌*◌, ◌<◌, ◌≤◌, ℕ, [], Bool, List, Option, None, Some, true, false, length, slice_get, slice_index, slice_set, min, vec_capacity};
ghost use Rattle.std.specs.List.{All, Contains};
ghost use Rattle.ice_core.specs.Congestion.{ArePrices, price};
ghost use Rattle.ice_graph.specs.declared.edge.Edge.{Edge as GraphEdge};
ghost use Rattle.ice_graph.specs.Hops.{AreHops};
ghost use Rattle.ice_path.specs.Aims.{Knows, RestFalls, beyond_at, rest};
ghost use Rattle.ice_path.specs.Looks.{AreFar, AreLed, AreMet, Meets, Reaches, Spreads, Widens};
ghost use Rattle.ice_path.specs.Queue.{IsEmpty, IsQueue, queue_len};
ghost use Rattle.ice_path.specs.Room.{AreWires};
ghost use Rattle.ice_base.specs.declared.number.WireNo.{WireNo as Wire};
ghost use Rattle.ice_path.specs.Search.{Queues, Touches, done, label};

use crate::aim::Aim;
use crate::queue::{Queue, clear, next_waiting, push};
use ice_base::WireNo;
use ice_core::{MOST_PRICE, Prices};
use ice_graph::{Edge, Graph};

/// How many wires a search widens before its targets, by whether it knows how many rows lead to them. Any number up to 63 is right: more
/// make the search's bounds exact farther from the targets, and each look longer. (These settle least in all where nets are crowded.)
pub fn widened_by(hops: &[u8]) -> usize
    ensures { result ≤ 63 }
{
    if hops.is_empty() { 16 } else { 3 }
}

// Gives a wire without a label this one, and has it wait under label and price.
fn wait(prices: &Prices, near: &mut [Option<u64>], queue: &mut Queue, wire: WireNo, cost: u64)
    requires prices { ArePrices prices.now }
    requires lengths { length prices.now.history.items ≡ length near.old }
    requires within { wire.0 < length near.old }
    requires none { label near.old wire.0 ≡ None }
    requires cost { cost ≤ 64 * MOST_PRICE }
    requires order { IsQueue queue.old }
    requires room { queue_len queue.old < queue.old.room }
    ensures near { near.new ≡ slice_set near.old wire.0 (Some cost) }
    ensures waits { (settled : List Bool) → Queues (price prices.now) settled near.old queue.old
        → Queues (price prices.now) settled near.new queue.new }
    ensures order { IsQueue queue.new }
    ensures len { queue_len queue.new ≡ queue_len queue.old + 1 }
    ensures capacity { queue.new.room ≡ queue.old.room }
{
    near[wire.0 as usize] = Some(cost);
    push(queue, cost + prices.of(wire), wire.0);
}

// Gives the wire this label, unless it has one, and has it wait under label and price.
#[tactic(auto, using(crate::proofs::Touching::touched_new, crate::proofs::Touching::room_left, crate::proofs::Looking::met_new, crate::proofs::Looking::met_again))]
fn meet(
    prices: &Prices,
    near: &mut [Option<u64>],
    marked: &mut Vec<u32>,
    queue: &mut Queue,
    wire: WireNo,
    cost: u64,
)
    requires prices { ArePrices prices.now }
    requires lengths { length prices.now.history.items ≡ length near.old }
    requires within { wire.0 < length near.old }
    requires cost { cost ≤ 64 * MOST_PRICE }
    requires order { IsQueue queue.old }
    requires room { (queue_len queue.old ≤ length marked.old.items)
        × (length near.old ≤ queue.old.room) }
    requires touches { Touches near.old marked.old.items }
    requires space { length near.old ≤ vec_capacity marked.old }
    ensures meets { Meets near.old near.new wire.0 cost }
    ensures waits { (settled : List Bool) → Queues (price prices.now) settled near.old queue.old
        → Queues (price prices.now) settled near.new queue.new }
    ensures order { IsQueue queue.new }
    ensures room { queue_len queue.new ≤ length marked.new.items }
    ensures capacity { queue.new.room ≡ queue.old.room }
    ensures touches { Touches near.new marked.new.items }
    ensures space { vec_capacity marked.new ≡ vec_capacity marked.old }
{
    if near[wire.0 as usize].is_some() {
        return;
    }
    marked.push_reserved(wire.0);
    wait(prices, near, queue, wire, cost);
}

// Gives the targets the label 0.
#[tactic(auto, using(crate::proofs::Looking::are_met_none, crate::proofs::Starting::queues_none))]
fn meet_all(
    prices: &Prices,
    targets: &[WireNo],
    near: &mut [Option<u64>],
    marked: &mut Vec<u32>,
    queue: &mut Queue,
)
    requires prices { ArePrices prices.now }
    requires lengths { length prices.now.history.items ≡ length near.old }
    requires targets { AreWires (length near.old) targets.now }
    requires order { IsQueue queue.old }
    requires empty { IsEmpty queue.old × (queue_len queue.old ≡ 0) }
    requires room { length near.old ≤ queue.old.room }
    requires fresh { (w : ℕ) → label near.old w ≡ None }
    requires touches { Touches near.old marked.old.items }
    requires space { length near.old ≤ vec_capacity marked.old }
    ensures met { AreMet targets.now (length targets.now) near.new }
    ensures waits { (settled : List Bool) → Queues (price prices.now) settled near.new queue.new }
    ensures order { IsQueue queue.new }
    ensures room { queue_len queue.new ≤ length marked.new.items }
    ensures capacity { queue.new.room ≡ queue.old.room }
    ensures touches { Touches near.new marked.new.items }
    ensures space { vec_capacity marked.new ≡ vec_capacity marked.old }
{
    for target in targets {
        meet(prices, near, marked, queue, *target, 0);
    }
}

// Gives the sources of these rows this label, unless they have one.
#[tactic(auto, using(crate::proofs::Looking::widens_none))]
fn widen(
    prices: &Prices,
    rows: &[Edge],
    cost: u64,
    near: &mut [Option<u64>],
    marked: &mut Vec<u32>,
    queue: &mut Queue,
)
    requires prices { ArePrices prices.now }
    requires lengths { length prices.now.history.items ≡ length near.old }
    requires rows { (k : ℕ) (e : GraphEdge) → slice_get rows.now k ≡ Some e
        → e.from.0 < length near.old }
    requires cost { cost ≤ 64 * MOST_PRICE }
    requires order { IsQueue queue.old }
    requires room { (queue_len queue.old ≤ length marked.old.items)
        × (length near.old ≤ queue.old.room) }
    requires touches { Touches near.old marked.old.items }
    requires space { length near.old ≤ vec_capacity marked.old }
    ensures widens { Widens rows.now cost (length rows.now) near.old near.new }
    ensures waits { (settled : List Bool) → Queues (price prices.now) settled near.old queue.old
        → Queues (price prices.now) settled near.new queue.new }
    ensures order { IsQueue queue.new }
    ensures room { queue_len queue.new ≤ length marked.new.items }
    ensures capacity { queue.new.room ≡ queue.old.room }
    ensures touches { Touches near.new marked.new.items }
    ensures space { vec_capacity marked.new ≡ vec_capacity marked.old }
{
    for row in rows {
        meet(prices, near, marked, queue, row.from, cost);
    }
}

// Widens the next wires, so many where there are as many: each source of a row into one is met. A wire that is met has its least
// cost, since label and price of those that are widened rise. It answers what no label exceeds, and no sum of a waiting wire is below.
fn look(
    graph: &Graph,
    prices: &Prices,
    widened: usize,
    near: &mut [Option<u64>],
    settled: &mut [bool],
    marked: &mut Vec<u32>,
    queue: &mut Queue,
) -> u64
    requires prices { ArePrices prices.now }
    requires lengths { (length prices.now.history.items ≡ graph.now.wires)
        × (length near.old ≡ graph.now.wires) × (length settled.old ≡ graph.now.wires) }
    requires few { widened ≤ 63 }
    requires spreads { Spreads graph.now.edges (price prices.now) 1 near.old settled.old }
    requires order { IsQueue queue.old }
    requires room { (queue_len queue.old ≤ length marked.old.items)
        × (graph.now.wires ≤ queue.old.room) }
    requires touches { Touches near.old marked.old.items }
    requires space { graph.now.wires ≤ vec_capacity marked.old }
    requires waits { Queues (price prices.now) settled.old near.old queue.old }
    ensures spreads { Spreads graph.now.edges (price prices.now) result near.new settled.new }
    ensures led { (targets : List Wire) (rest : ℕ → Option ℕ) → RestFalls graph.now.edges rest
        → AreLed targets rest near.old → AreLed targets rest near.new }
    ensures some { 1 ≤ result }
    ensures small { result ≤ 64 * MOST_PRICE }
    ensures order { IsQueue queue.new }
    ensures capacity { queue.new.room ≡ queue.old.room }
    ensures touches { Touches near.new marked.new.items }
    ensures space { vec_capacity marked.new ≡ vec_capacity marked.old }
{
    graph.is_graph();
    let mut far = 1;
    for _step in 0..widened {
        let Some((wire, sum)) = next_waiting(queue, settled) else {
            return far;
        };
        far = sum;
        settled[wire as usize] = true;
        widen(
            prices,
            graph.rows_into(WireNo(wire)),
            sum,
            near,
            marked,
            queue,
        );
    }
    far
}

// Lowers the cost beyond for one row more than one wire has, if that still waits, to its label and price.
fn note_one(
    graph: &Graph,
    prices: &Prices,
    way: &Aim,
    near: &[Option<u64>],
    settled: &[bool],
    wire: u32,
    beyond: &mut [u64],
)
    requires prices { ArePrices prices.now }
    requires guides { AreWires graph.now.wires way.now.guides.now }
    requires lengths { (length prices.now.history.items ≡ graph.now.wires)
        × (length near.now ≡ graph.now.wires) × (length settled.now ≡ graph.now.wires) }
    requires small { (w c : ℕ) → label near.now w ≡ Some c → c ≤ 64 * MOST_PRICE }
    requires wire { wire < graph.now.wires }
    requires long { length beyond.old ≡ 64 }
    ensures long { length beyond.new ≡ 64 }
    ensures here { (c k : ℕ) → done settled.now wire ≡ false → label near.now wire ≡ Some c
        → rest graph.now way.now.hops.now way.now.guides.now wire ≡ Some k
        → slice_index beyond.new (min (k + 1) 63) ≤ c + price prices.now wire }
    ensures lower { (k : ℕ) → slice_index beyond.new k ≤ slice_index beyond.old k }
    ensures far { (far : ℕ) → AreFar far beyond.old
        → ((w c : ℕ) → done settled.now w ≡ false → label near.now w ≡ Some c
        → far ≤ c + price prices.now w)
        → AreFar far beyond.new }
{
    if settled[wire as usize] {
        return;
    }
    let Some(cost) = near[wire as usize] else {
        return;
    };
    let Some(rows) = way.rest(graph, WireNo(wire)) else {
        return;
    };
    let place = (rows as usize + 1).min(63);
    beyond[place] = beyond[place].min(cost + prices.of(WireNo(wire)));
}

// Lowers the costs beyond to labels and prices of the wires that still wait: a walk from a wire that was not met has a row before it comes
// to one of them.
fn note(
    graph: &Graph,
    prices: &Prices,
    way: &Aim,
    near: &[Option<u64>],
    settled: &[bool],
    marked: &[u32],
    beyond: &mut [u64],
)
    requires prices { ArePrices prices.now }
    requires guides { AreWires graph.now.wires way.now.guides.now }
    requires lengths { (length prices.now.history.items ≡ graph.now.wires)
        × (length near.now ≡ graph.now.wires) × (length settled.now ≡ graph.now.wires) }
    requires small { (w c : ℕ) → label near.now w ≡ Some c → c ≤ 64 * MOST_PRICE }
    requires marked { All (λ w. w < length near.now) marked.now }
    requires long { length beyond.old ≡ 64 }
    ensures long { length beyond.new ≡ 64 }
    ensures reach { Reaches marked.now (length marked.now) (price prices.now)
        (rest graph.now way.now.hops.now way.now.guides.now) near.now settled.now beyond.new }
    ensures lower { (k : ℕ) → slice_index beyond.new k ≤ slice_index beyond.old k }
    ensures far { (far : ℕ) → AreFar far beyond.old
        → ((w c : ℕ) → done settled.now w ≡ false → label near.now w ≡ Some c
        → far ≤ c + price prices.now w)
        → AreFar far beyond.new }
{
    for wire in marked {
        note_one(graph, prices, way, near, settled, *wire, beyond);
    }
}

// Lowers each cost to the next one.
fn level_down(beyond: &mut [u64])
    requires long { length beyond.old ≡ 64 }
    ensures long { length beyond.new ≡ 64 }
    ensures rises { (k : ℕ) → k < 63 → slice_index beyond.new k ≤ slice_index beyond.new (k + 1) }
    ensures lower { (k : ℕ) → slice_index beyond.new k ≤ slice_index beyond.old k }
    ensures far { (far : ℕ) → AreFar far beyond.old → AreFar far beyond.new }
{
    for step in 0..63 {
        let place = 62 - step;
        beyond[place] = beyond[place].min(beyond[place + 1]);
    }
}

// Lowers each cost to one more than that before it.
fn level_up(beyond: &mut [u64])
    requires long { length beyond.old ≡ 64 }
    requires small { (k : ℕ) → slice_index beyond.old k ≤ 64 * MOST_PRICE }
    requires rises { (k : ℕ) → k < 63 → slice_index beyond.old k ≤ slice_index beyond.old (k + 1) }
    ensures long { length beyond.new ≡ 64 }
    ensures rises { (k : ℕ) → k < 63 → slice_index beyond.new k ≤ slice_index beyond.new (k + 1) }
    ensures slope { (k : ℕ) → k < 63
        → slice_index beyond.new (k + 1) ≤ slice_index beyond.new k + 1 }
    ensures lower { (k : ℕ) → slice_index beyond.new k ≤ slice_index beyond.old k }
    ensures far { (far : ℕ) → AreFar far beyond.old → AreFar far beyond.new }
{
    for place in 0..63 {
        beyond[place + 1] = beyond[place + 1].min(beyond[place] + 1);
    }
}

// Sets each cost.
fn fill(beyond: &mut [u64], cost: u64)
    ensures long { length beyond.new ≡ length beyond.old }
    ensures all { (k : ℕ) → k < length beyond.old → slice_index beyond.new k ≡ cost }
    ensures small { (k : ℕ) → slice_index beyond.new k ≤ cost }
{
    for place in 0..beyond.len() {
        beyond[place] = cost;
    }
}

/// Looks back from the targets of the way: of the wires that are met so, what a walk to a target costs at least from
/// each, and for all others what one costs at least by the rows that it has.
pub fn look_back(
    graph: &Graph,
    prices: &Prices,
    way: &Aim,
    widened: usize,
    near: &mut [Option<u64>],
    settled: &mut [bool],
    marked: &mut Vec<u32>,
    beyond: &mut [u64],
    queue: &mut Queue,
)
    requires prices { ArePrices prices.now }
    requires lengths { (length prices.now.history.items ≡ graph.now.wires)
        × (length near.old ≡ graph.now.wires) × (length settled.old ≡ graph.now.wires) }
    requires targets { AreWires graph.now.wires way.now.targets.now }
    requires guides { AreWires graph.now.wires way.now.guides.now }
    requires hops { AreHops graph.now.edges way.now.targets.now way.now.hops.now }
    requires few { widened ≤ 63 }
    requires near { (w : ℕ) → label near.old w ≡ None }
    requires settled { (w : ℕ) → done settled.old w ≡ false }
    requires marked { marked.old.items ≡ [] }
    requires space { graph.now.wires ≤ vec_capacity marked.old }
    requires long { length beyond.old ≡ 64 }
    requires queue { IsEmpty queue.old × (queue_len queue.old ≡ 0) × IsQueue queue.old }
    requires room { graph.now.wires + length graph.now.edges ≤ queue.old.room }
    ensures knows { Knows graph.now.edges (price prices.now) way.now.targets.now near.new
        (rest graph.now way.now.hops.now way.now.guides.now) (beyond_at beyond.new) }
    ensures small { ((w c : ℕ) → label near.new w ≡ Some c → c ≤ 64 * MOST_PRICE)
        × ((k : ℕ) → slice_index beyond.new k ≤ 64 * MOST_PRICE) }
    ensures long { (length near.new ≡ length near.old) × (length settled.new ≡ length settled.old)
        × (length beyond.new ≡ 64) }
    ensures settled { (w : ℕ) → done settled.new w ≡ false }
    ensures labelled { (w c : ℕ) → label near.new w ≡ Some c → Contains marked.new.items w }
    ensures within { All (λ w. w < graph.now.wires) marked.new.items }
    ensures space { vec_capacity marked.new ≡ vec_capacity marked.old }
    ensures queue { IsEmpty queue.new × (queue_len queue.new ≡ 0) × IsQueue queue.new }
    ensures capacity { queue.new.room ≡ queue.old.room }
{
    graph.is_graph();
    meet_all(prices, way.targets, near, marked, queue);
    let _far = look(graph, prices, widened, near, settled, marked, queue);
    clear(queue);
    fill(beyond, 64 * MOST_PRICE);
    note(graph, prices, way, near, settled, marked, beyond);
    level_down(beyond);
    level_up(beyond);
    open_all(settled, marked);
}

// Takes the mark from each of these wires, which are all that have one.
fn open_all(settled: &mut [bool], marked: &[u32])
    requires within { All (λ w. w < length settled.old) marked.now }
    requires only { (w : ℕ) → done settled.old w ≡ true → Contains marked.now w }
    ensures long { length settled.new ≡ length settled.old }
    ensures none { (w : ℕ) → done settled.new w ≡ false }
{
    for wire in marked {
        settled[*wire as usize] = false;
    }
}
