//! Usable rows, as numbers in a text.
use crate::asked::{Asked, expect};
use crate::claims::expect_that;
use ice_base::{WordIter, number_of, words_of};
use ice_graph::{Edge, Graph};
use ice_tests_small_chips::Sample;
use std::alloc::Global;
use std::process::Abort;
use std::thread::Threads;

/// What stands in place of a line of a text, and the usable rows of its chip: the number, the source and the target of each.
pub type Case = (&'static [u8], &'static [u8]);

/// The number that the next word is, or the greatest number where no word is left or it is no number.
pub fn next_number(words: &mut WordIter<'_>) -> u32 {
    match words.next() {
        Some(word) => number_of(word).unwrap_or(u32::MAX),
        None => u32::MAX,
    }
}

// Fails unless the edges are these: three words for each.
fn expect_edges(rt: &impl Abort, edges: &[Edge], rows: &[u8]) {
    let mut words = words_of(rows);
    for edge in edges {
        expect_that(rt, edge.row.0 == next_number(&mut words), rows);
        expect_that(rt, edge.from.0 == next_number(&mut words), rows);
        expect_that(rt, edge.to.0 == next_number(&mut words), rows);
    }
    expect_that(rt, words.next().is_none(), rows);
}

/// Fails unless the graph has this many wires and these edges.
pub fn expect_graph(rt: &impl Abort, graph: &Graph, wires: u32, rows: &[u8]) {
    expect_that(rt, graph.wires() == wires, b"graph");
    expect_edges(rt, graph.edges(), rows);
}

/// Fails unless the chip of a text has this many wires, and the usable rows of each case with its lines in place of this line.
pub fn expect_cases(
    rt: &(impl Abort + Threads + Sync),
    alloc: Global,
    sample: Sample,
    line: u32,
    wires: u32,
    cases: &[Case],
) {
    for (lines, rows) in cases {
        let asked = Asked::Usable(wires, *rows);
        expect(rt, alloc, sample, &[(line, *lines)], asked);
    }
}
