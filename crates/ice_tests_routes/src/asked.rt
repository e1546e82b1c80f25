//! What is asked of the graph of the usable rows of a chip. One function reads all chips, so that no other has to own one.
use crate::routes::{Wanted, expect_answer};
use crate::usable::expect_graph;
use ice_chip::Chip;
use ice_chip_read::read_chip;
use ice_fabric::fabric;
use ice_graph::Graph;
use ice_tests_small_chips::{Change, Sample, text_with};
use std::alloc::Global;
use std::process::Abort;
use std::thread::Threads;

/// What is asked of the usable rows of a chip.
#[derive(Clone, Copy)]
pub enum Asked {
    /// The number of the chip's wires, and the rows.
    Usable(u32, &'static [u8]),
    /// What is answered for nets.
    Routed(Wanted),
}

// Fails unless this is answered of a graph.
fn expect_asked(rt: &(impl Abort + Threads + Sync), alloc: Global, graph: &Graph, asked: Asked) {
    match asked {
        Asked::Usable(wires, rows) => expect_graph(rt, graph, wires, rows),
        Asked::Routed(wanted) => expect_answer(rt, alloc, graph, wanted),
    }
}

// Fails unless this is answered of the usable rows of a chip.
fn expect_chip(rt: &(impl Abort + Threads + Sync), alloc: Global, chip: &Chip, asked: Asked) {
    let graph = fabric(alloc, chip).expect(rt, "memory");
    expect_asked(rt, alloc, &graph, asked);
    drop(graph);
}

// Fails unless this is answered of the usable rows of the chip of a text.
fn expect_text(rt: &(impl Abort + Threads + Sync), alloc: Global, text: &[u8], asked: Asked) {
    let chip = read_chip(alloc, text).expect(rt, "a chip");
    expect_chip(rt, alloc, &chip, asked);
    drop(chip);
}

/// Fails unless this is answered of the usable rows of the chip of a text with these changes.
pub fn expect(
    rt: &(impl Abort + Threads + Sync),
    alloc: Global,
    sample: Sample,
    changes: &[Change],
    asked: Asked,
) {
    let text = text_with(alloc, sample, changes).expect(rt, "memory");
    expect_text(rt, alloc, &text, asked);
}
