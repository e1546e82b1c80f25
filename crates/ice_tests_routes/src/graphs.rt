//! The rows of each wire of a small graph, and how far its wires are apart.
use crate::claims::expect_that;
use ice_base::WireNo;
use ice_graph::{Edge, Graph};
use ice_tests_small_chips::{count_words, line_at, number_at};
use ice_tests_small_graphs::{TWO_WAYS, graph_of, placed_graph, sink_of};
use std::alloc::Global;
use std::process::Abort;

/// The columns of the edges of the two ways in the chip with the short and the long way.
pub const COLUMNS: &[u8] = b"0 0 0 0 1 1 1 1 1";

// The two ways, whose rows are not all there.
const SPARSE: &[u8] = b"0 0 2  1 1 2  2 0 3  3 1 3  4 3 4  5 2 5  7 2 6  9 4 5  12 4 6";

// On each line the rows into a wire.
const INTO: &[u8] = b"\n\n0 1\n2 3\n4\n5 9\n7 12";

// On each line the rows from a wire.
const FROM: &[u8] = b"0 2\n1 3\n5 7\n4\n9 12\n\n";

// Fails unless these are the rows of the edges.
fn expect_rows(rt: &impl Abort, edges: &[Edge], rows: &[u8]) {
    expect_that(rt, edges.len() == count_words(rows), rows);
    let mut place: usize = 0;
    for edge in edges {
        expect_that(rt, edge.row.0 == number_at(rows, place), rows);
        place = place.saturating_add(1);
    }
}

// Fails unless each wire has its rows.
fn expect_graph(rt: &impl Abort, graph: &Graph) {
    expect_that(rt, graph.wires() == 7, b"wires");
    expect_that(rt, graph.edges().len() == 9, b"edges");
    for wire in 0..graph.wires() {
        expect_rows(
            rt,
            graph.rows_into(WireNo(wire)),
            line_at(INTO, wire as usize),
        );
        expect_rows(
            rt,
            graph.rows_from(WireNo(wire)),
            line_at(FROM, wire as usize),
        );
    }
}

// Two wires and their bound.
const APART: [(u32, u32, u64); 7] = [
    (0, 0, 0),
    // The two wires stand in one column each.
    (0, 5, 2),
    (5, 0, 2),
    // One of them stands in both columns.
    (0, 2, 1),
    (3, 5, 1),
    (4, 6, 1),
    (1, 6, 2),
];

// Fails unless the wires are so far apart: in two columns a greatest half perimeter of 0 would make each bound 0 or 1.
fn expect_apart(rt: &impl Abort, graph: &Graph, cases: &[(u32, u32, u64)]) {
    for case in cases {
        let (wire, target, bound) = *case;
        expect_that(rt, wire < graph.wires(), b"wire");
        expect_that(rt, target < graph.wires(), b"target");
        let found = graph.bound(WireNo(wire), WireNo(target));
        expect_that(rt, found == bound, b"apart");
    }
}

// Fails unless the least of the bounds to three wires is that of the nearest.
fn expect_least(rt: &impl Abort, alloc: Global, graph: &Graph) {
    let sink = sink_of(alloc, graph.wires(), b"5 2 6").expect(rt, "a sink");
    expect_that(rt, graph.wires() > 0, b"wires");
    let least = graph.least_bound(WireNo(0), sink.targets());
    expect_that(rt, least == 1, b"least");
}

#[test]
fn rows_and_bounds_are_those_of_the_edges(rt: HostRuntime) {
    let alloc = rt.alloc();
    let sparse = graph_of(alloc, 7, SPARSE).expect(&rt, "a graph");
    expect_graph(&rt, &sparse);
    drop(sparse);
    let placed = placed_graph(alloc, 7, TWO_WAYS, COLUMNS).expect(&rt, "a graph");
    expect_apart(&rt, &placed, &APART);
    expect_least(&rt, alloc, &placed);
    drop(placed);
}
