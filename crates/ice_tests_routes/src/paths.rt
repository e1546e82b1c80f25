//! Costs, taken paths and settled wires in small graphs.
ghost use Rattle.std.specs.Prelude.{◌≡◌, ◌≤◌, length, IsSome, OnSome};
ghost use Rattle.ice_core.specs.Congestion.{ArePrices};
ghost use Rattle.ice_path.specs.Room.{IsFor};

use crate::claims::expect_that;
use crate::graphs::COLUMNS;
use ice_base::WireNo;
use ice_core::Prices;
use ice_graph::{Edge, Graph, Tree};
use ice_path::{Scratch, connect, path, settled};
use ice_tests_small_chips::{count_words, number_at};
use ice_tests_small_graphs::{TWO_WAYS, graph_of, placed_graph, prices_at, sink_of, wires_of};
use std::alloc::Global;
use std::process::Abort;

// The wires of a tree, the targets, and the cost of the taken path and its rows, or nothing where none is there.
type Way = (&'static [u8], &'static [u8], &'static [u8], &'static [u8]);

// Fails unless these are the rows of the edges.
fn expect_rows(rt: &impl Abort, edges: &[Edge], rows: &[u8]) {
    expect_that(rt, edges.len() == count_words(rows), rows);
    let mut place: usize = 0;
    for edge in edges {
        expect_that(rt, edge.row.0 == number_at(rows, place), rows);
        place = place.saturating_add(1);
    }
}

// The cost of the taken path from the wires of a tree to a sink.
fn cost_of(
    rt: &impl Abort,
    alloc: Global,
    graph: &Graph,
    prices: &Prices,
    way: Way,
    scratch: &mut Scratch,
) -> Option<u64>
    requires prices { ArePrices prices.now }
    requires wires { length prices.now.history.items ≡ graph.now.wires }
    requires scratch { IsFor graph.now scratch.old }
    ensures scratch { IsFor graph.now scratch.new }
    ensures path { OnSome result (IsSome scratch.new.path) }
{
    let wires = wires_of(alloc, graph.wires(), way.0).expect(rt, "wires");
    let tree = Tree {
        wires,
        rows: Vec::new(alloc),
    };
    let sink = sink_of(alloc, graph.wires(), way.1).expect(rt, "a sink");
    connect(graph, prices, &tree, sink.targets(), scratch)
}

// Fails unless the taken path has this cost and these rows.
fn expect_way(
    rt: &impl Abort,
    alloc: Global,
    graph: &Graph,
    prices: &Prices,
    way: Way,
    scratch: &mut Scratch,
)
    requires prices { ArePrices prices.now }
    requires wires { length prices.now.history.items ≡ graph.now.wires }
    requires scratch { IsFor graph.now scratch.old }
    ensures { IsFor graph.now scratch.new }
{
    match cost_of(rt, alloc, graph, prices, way, scratch) {
        Some(cost) => {
            expect_that(rt, cost == u64::from(number_at(way.2, 0)), way.3);
            expect_rows(rt, path(scratch), way.3);
        }
        None => expect_that(rt, count_words(way.2) == 0, way.3),
    }
}

// Fails unless each taken path has its cost and its rows, in the prices of a round in which wire 2 has this history and
// is held by so many others.
fn expect_ways(rt: &impl Abort, alloc: Global, graph: &Graph, at: (u32, u8, u8), ways: &[Way]) {
    expect_that(rt, graph.wires() == 7, b"wires");
    expect_that(rt, at.0 >= 1, b"first");
    expect_that(rt, at.0 <= 64, b"last");
    let prices = prices_at(alloc, at.0, at.1, at.2).expect(rt, "memory");
    let mut scratch = Scratch::new(alloc, graph).expect(rt, "memory");
    for way in ways {
        expect_way(rt, alloc, graph, &prices, *way, &mut scratch);
    }
    drop(scratch);
    drop(prices);
}

// Where all wires cost the same: from one wire, from two, within the tree, to no wire, and to the first of the nearest targets.
const PLAIN: [Way; 9] = [
    (b"0", b"5", b"2", b"0 5"),
    (b"0", b"2", b"1", b"0"),
    (b"0 3", b"6", b"2", b"0 7"),
    (b"0 3", b"3", b"0", b""),
    (b"0 3", b"1", b"", b""),
    (b"0", b"1 5", b"2", b"0 5"),
    (b"0", b"5 6 3 2", b"1", b"2"),
    (b"0", b"5 6 2 3", b"1", b"0"),
    (b"0 3", b"5 3 2 0", b"0", b""),
];

// Where wire 2 costs as much as the long way.
const TIED: [Way; 1] = [(b"0", b"5", b"3", b"0 5")];

// Where wire 2 costs more than the long way.
const CROWDED: [Way; 3] = [
    (b"0 3", b"6", b"2", b"4 8"),
    (b"0", b"5", b"3", b"2 4 6"),
    (b"0", b"2 5", b"3", b"2 4 6"),
];

// Where only the way over wire 2 is there.
const SHORT: [Way; 2] = [(b"0", b"2", b"4", b"0"), (b"0", b"5", b"5", b"0 5")];

// The first row goes before the shorter walk.
const FIRST_ROW: [Way; 1] = [(b"0", b"4", b"3", b"3 4 6")];

// Fails unless each taken path has its cost and its rows in a graph of these edges, in such prices.
fn expect_ways_of(rt: &impl Abort, alloc: Global, edges: &[u8], at: (u32, u8, u8), ways: &[Way]) {
    let graph = graph_of(alloc, 7, edges).expect(rt, "a graph");
    expect_ways(rt, alloc, &graph, at, ways);
    drop(graph);
}

// The short way of the two alone, and a graph of which the first row goes before the shorter walk.
const SHORT_WAY: &[u8] = b"0 0 2  1 1 2  5 2 5  7 2 6";

const LATER_ROWS: &[u8] = b"3 0 1  4 1 3  6 3 4  7 0 2  9 2 4";

#[test]
fn the_cheapest_way_is_taken(rt: HostRuntime) {
    let alloc = rt.alloc();
    expect_ways_of(&rt, alloc, TWO_WAYS, (1, 0, 0), &PLAIN);
    expect_ways_of(&rt, alloc, TWO_WAYS, (2, 1, 0), &TIED);
    expect_ways_of(&rt, alloc, TWO_WAYS, (2, 1, 1), &CROWDED);
    expect_ways_of(&rt, alloc, SHORT_WAY, (2, 1, 1), &SHORT);
    expect_ways_of(&rt, alloc, LATER_ROWS, (1, 1, 0), &FIRST_ROW);
}

// Fails unless exactly these wires are settled.
fn expect_settled(rt: &impl Abort, found: &[WireNo], wires: &[u8]) {
    expect_that(rt, found.len() == count_words(wires), b"settled");
    for place in 0..count_words(wires) {
        let wire = WireNo(number_at(wires, place));
        expect_that(rt, found.contains(&wire), b"settled");
    }
}

// Fails unless the two ways have a path of cost 2 to wire 5, and these wires are settled then.
fn expect_two_ways(rt: &impl Abort, alloc: Global, graph: &Graph) {
    expect_that(rt, graph.wires() == 7, b"wires");
    let prices = prices_at(alloc, 1, 0, 0).expect(rt, "memory");
    let mut scratch = Scratch::new(alloc, graph).expect(rt, "memory");
    let way: Way = (b"0", b"5", b"2", b"0 5");
    let cost = cost_of(rt, alloc, graph, &prices, way, &mut scratch).expect(rt, "a path");
    expect_that(rt, cost == 2, b"cost");
    expect_rows(rt, path(&scratch), b"0 5");
    expect_settled(rt, settled(&scratch), b"0 2 3 5");
    drop(scratch);
    drop(prices);
}

#[test]
fn wires_within_the_cost_are_settled(rt: HostRuntime) {
    let graph = placed_graph(rt.alloc(), 7, TWO_WAYS, COLUMNS).expect(&rt, "a graph");
    expect_two_ways(&rt, rt.alloc(), &graph);
    drop(graph);
}
