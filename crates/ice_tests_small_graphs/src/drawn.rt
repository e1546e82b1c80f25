//! Numbers and graphs that are drawn.
ghost use Rattle.std.specs.Prelude.{◌≡◌, ◌<◌, ◌≤◌, IfOk, IfSome};
ghost use Rattle.ice_tests_small_graphs.specs.Rising.{AreRising};

use crate::built::add_edge;
use ice_base::{RowNo, WireNo};
use ice_graph::{Edge, Graph};
use rand_core::utils::NextWord;
use rand_pcg::Pcg32;
use std::alloc::{AllocError, Global};

/// A number below the bound, from the next word of a generator.
pub fn draw(words: &mut Pcg32, bound: u32) -> u32
    requires { 0 < bound }
    ensures { result < bound }
{
    words.next_word() % bound
}

// An edge in a row, between drawn wires, of which the first ones are entered by no edge.
fn drawn_edge(words: &mut Pcg32, row: u32, wires: u32, roots: u32) -> Edge
    requires { roots < wires }
    ensures row { result.row.0 ≡ row }
    ensures between { (result.from.0 < wires) × (result.to.0 < wires) }
{
    let from = draw(words, wires);
    let to = roots + draw(words, wires - roots);
    Edge {
        row: RowNo(row),
        from: WireNo(from),
        to: WireNo(to),
    }
}

// Drawn edges, in rows from 0 on.
fn drawn_edges(
    alloc: Global,
    words: &mut Pcg32,
    count: u32,
    wires: u32,
    roots: u32,
) -> Result<Vec<Edge>, AllocError>
    requires { roots < wires }
    ensures { IfOk result (λ edges. AreRising wires count edges.items) }
{
    let mut edges = Vec::new(alloc);
    for row in 0..count {
        let edge = drawn_edge(words, row, wires, roots);
        add_edge(&mut edges, wires, row, edge)?;
    }
    Ok(edges)
}

/// A graph with this many drawn edges, none of which enters one of the first wires. There is none where memory lacks.
pub fn drawn_graph(
    alloc: Global,
    words: &mut Pcg32,
    count: u32,
    wires: u32,
    roots: u32,
) -> Option<Graph>
    requires { roots < wires }
    ensures { IfSome result (λ graph. graph.wires ≡ wires) }
{
    let Ok(edges) = drawn_edges(alloc, words, count, wires, roots) else {
        return None;
    };
    match Graph::new(alloc, wires, edges) {
        Ok(graph) => Some(graph),
        Err(_) => None,
    }
}

/// The number of a wire or a net at a place.
pub fn number_of(place: usize) -> u32 {
    u32::try_from(place).unwrap_or(u32::MAX)
}
