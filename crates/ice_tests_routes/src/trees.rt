//! Trees of small nets.
ghost use Rattle.ice_negotiate_defs.specs.Trees.{AreSinks};

use crate::claims::expect_that;
use ice_base::{RowNo, Sink, WireNo};
use ice_graph::{Graph, Tree};
use ice_negotiate_defs::{TreeStop, tree_of};
use ice_path::Scratch;
use ice_tests_small_chips::{count_words, number_at};
use ice_tests_small_graphs::{TWO_WAYS, graph_of, prices_at, sinks_of};
use std::alloc::Global;
use std::process::Abort;

// On each line the targets of a sink; and the wires and the rows of the tree, or the first target of the sink that is not reached.
type Case = (&'static [u8], &'static [u8], &'static [u8]);

/// Fails unless these are the wires.
pub fn expect_wires(rt: &impl Abort, wires: &[WireNo], numbers: &[u8]) {
    expect_that(rt, wires.len() == count_words(numbers), numbers);
    let mut place: usize = 0;
    for wire in wires {
        expect_that(rt, wire.0 == number_at(numbers, place), numbers);
        place = place.saturating_add(1);
    }
}

/// Fails unless these are the rows.
pub fn expect_rows(rt: &impl Abort, rows: &[RowNo], numbers: &[u8]) {
    expect_that(rt, rows.len() == count_words(numbers), numbers);
    let mut place: usize = 0;
    for row in rows {
        expect_that(rt, row.0 == number_at(numbers, place), numbers);
        place = place.saturating_add(1);
    }
}

// Fails unless this is the tree of a case, or why there is none.
fn expect_answer(rt: &impl Abort, answer: &Result<Tree, TreeStop>, case: Case) {
    match answer {
        Ok(tree) => {
            expect_wires(rt, &tree.wires, case.1);
            expect_rows(rt, &tree.rows, case.2);
        }
        Err(TreeStop::Unreachable { sink }) => {
            expect_that(rt, case.1 == b"none".as_slice(), case.1);
            expect_that(rt, sink.0 == number_at(case.2, 0), case.2);
        }
        Err(TreeStop::NoMemory) => expect_that(rt, false, b"memory"),
    }
}

// Fails unless the net from wire 0 to these sinks has the tree of a case in the first round.
fn expect_joined(rt: &impl Abort, alloc: Global, graph: &Graph, sinks: &[Sink], case: Case)
    requires { AreSinks graph.now.wires sinks.now }
{
    expect_that(rt, graph.wires() == 7, b"wires");
    let prices = prices_at(alloc, 1, 0, 0).expect(rt, "memory");
    let mut scratch = Scratch::new(alloc, graph).expect(rt, "memory");
    let answer = tree_of(alloc, graph, &prices, WireNo(0), sinks, &mut scratch);
    drop(scratch);
    drop(prices);
    expect_answer(rt, &answer, case);
    drop(answer);
}

// Fails unless the net from wire 0 has the tree of a case in the first round.
fn expect_tree(rt: &impl Abort, alloc: Global, graph: &Graph, case: Case) {
    let sinks = sinks_of(alloc, graph.wires(), case.0).expect(rt, "sinks");
    expect_joined(rt, alloc, graph, &sinks, case);
    drop(sinks);
}

// Fails unless each net has its tree in a graph.
fn expect_all(rt: &impl Abort, alloc: Global, graph: &Graph, cases: &[Case]) {
    for case in cases {
        expect_tree(rt, alloc, graph, *case);
    }
}

// Fails unless each net has its tree in a graph of these edges.
fn expect_trees(rt: &impl Abort, alloc: Global, edges: &[u8], cases: &[Case]) {
    let graph = graph_of(alloc, 7, edges).expect(rt, "a graph");
    expect_all(rt, alloc, &graph, cases);
    drop(graph);
}

// Two ways lead to wire 3, and none to wire 5.
const SIX_WIRES: &[u8] = b"0 0 1  1 0 2  2 1 3  3 2 3  4 2 4";

const ONE_TARGET: [Case; 3] = [
    (b"3\n4\n1", b"0 1 3 2 4", b"0 2 1 4"),
    (b"4\n3", b"0 2 4 3", b"1 4 3"),
    (b"3\n5\n4", b"none", b"5"),
];

// Of four targets the first with the least label is taken. A sink of which the tree holds a target adds no row.
const MORE_TARGETS: [Case; 5] = [
    (b"6 5 3 2", b"0 3", b"2"),
    (b"6 5 2 3", b"0 2", b"0"),
    (b"3\n5 3", b"0 3", b"2"),
    (b"5 6 4 3\n4 6\n1 0", b"0 3 4", b"2 4"),
    (b"6\n1\n5", b"none", b"1"),
];

#[test]
fn sinks_are_joined_in_order(rt: HostRuntime) {
    expect_trees(&rt, rt.alloc(), SIX_WIRES, &ONE_TARGET);
    expect_trees(&rt, rt.alloc(), TWO_WAYS, &MORE_TARGETS);
}
