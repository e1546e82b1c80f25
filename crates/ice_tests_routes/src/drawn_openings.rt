//! Three nets in drawn graphs, with an opening and without.
ghost use Rattle.std.specs.Prelude.{◌≡◌, ◌≤◌};

use crate::claims::expect_that;
use crate::opened::{expect_unchanged, nets_to};
use ice_graph::Graph;
use ice_tests_small_graphs::{draw, drawn_graph};
use rand_core::SeedableRng;
use rand_pcg::Pcg32;
use std::alloc::Global;
use std::process::Abort;
use std::thread::Threads;

// How many graphs there are.
const TURNS: u32 = 150;

// On each line the targets of a sink of one net.
const SINKS: [&[u8]; 3] = [b"5 6", b"7\n8 9", b"10\n11 6"];

// Whether the three nets are routed in the graph, alike with an opening and without.
fn is_routed(rt: &(impl Abort + Threads + Sync), alloc: Global, graph: &Graph, rounds: u32) -> bool
    requires { (1 ≤ rounds) × (rounds ≤ 64) }
{
    let nets = nets_to(rt, alloc, graph, &SINKS);
    expect_unchanged(rt, alloc, graph, &nets, rounds, 1);
    expect_unchanged(rt, alloc, graph, &nets, rounds, 2);
    expect_unchanged(rt, alloc, graph, &nets, rounds, 8)
}

#[test]
fn an_opening_changes_no_route(rt: HostRuntime) {
    let alloc = rt.alloc();
    let mut words = Pcg32::seed_from_u64(1);
    let mut routed: u32 = 0;
    for turn in 0..TURNS {
        let rounds = 1 + draw(&mut words, 8);
        let graph = drawn_graph(alloc, &mut words, 26 + turn % 40, 12, 3).expect(&rt, "a graph");
        if is_routed(&rt, alloc, &graph, rounds) {
            routed = routed.saturating_add(1);
        }
    }
    expect_that(&rt, routed > 20, b"routed");
    expect_that(&rt, routed < TURNS - 20, b"not routed");
}
