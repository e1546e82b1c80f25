//! Routes of nets in generated graphs, against a plain program.
ghost use Rattle.std.specs.Prelude.{◌≡◌, ◌≤◌};
ghost use Rattle.ice_negotiate_defs.specs.Rounds.{AreNets};

use crate::claims::expect_that;
use crate::drawn_nets::{Size, drawn_nets};
use crate::plain_rounds::{Answer, End, plain_routes};
use ice_base::NetNo;
use ice_core::{Net, RoundLog};
use ice_desk::OpenGate;
use ice_graph::{Graph, Tree};
use ice_negotiate::negotiate;
use ice_negotiate_defs::{RouteFault, Routed};
use ice_tests_small_graphs::{draw, drawn_graph};
use rand_core::SeedableRng;
use rand_pcg::Pcg32;
use std::alloc::Global;
use std::process::Abort;
use std::thread::Threads;

// Fails unless the trees are equal.
fn expect_tree(rt: &impl Abort, found: &Tree, wanted: &Tree) {
    expect_that(
        rt,
        found.wires.as_slice() == wanted.wires.as_slice(),
        b"wires",
    );
    expect_that(rt, found.rows.as_slice() == wanted.rows.as_slice(), b"rows");
}

// Fails unless these are the nets that moved, with their trees.
fn expect_moved(rt: &impl Abort, found: &[(NetNo, Tree)], wanted: &[(NetNo, Tree)]) {
    expect_that(rt, found.len() == wanted.len(), b"moved");
    for (one, other) in found.iter().zip(wanted) {
        expect_that(rt, one.0.0 == other.0.0, b"moved");
        expect_tree(rt, &one.1, &other.1);
    }
}

// Fails unless the logs are equal.
fn expect_log(rt: &impl Abort, found: &RoundLog, wanted: &RoundLog) {
    expect_that(rt, found.round == wanted.round, b"round");
    expect_that(
        rt,
        found.history.as_slice() == wanted.history.as_slice(),
        b"history",
    );
    expect_moved(rt, &found.moved, &wanted.moved);
    expect_that(rt, found.over.as_slice() == wanted.over.as_slice(), b"over");
}

// Fails unless the logs are those of the rounds.
fn expect_logs(rt: &impl Abort, found: &[RoundLog], wanted: &[RoundLog]) {
    expect_that(rt, found.len() == wanted.len(), b"logs");
    for (one, other) in found.iter().zip(wanted) {
        expect_log(rt, one, other);
    }
}

// Fails unless the trees are those behind the last round.
fn expect_trees(rt: &impl Abort, found: &[Tree], wanted: &[Tree]) {
    expect_that(rt, found.len() == wanted.len(), b"trees");
    for (one, other) in found.iter().zip(wanted) {
        expect_tree(rt, one, other);
    }
}

// Fails unless the plain program routes the nets so.
fn expect_routed(rt: &impl Abort, routed: &Routed, wanted: &Answer) {
    expect_that(rt, wanted.end == End::Free, b"routed");
    expect_logs(rt, &routed.logs, &wanted.logs);
    expect_trees(rt, &routed.trees, &wanted.trees);
}

// Fails unless the plain program meets this fault.
fn expect_fault(rt: &impl Abort, fault: &RouteFault, wanted: &Answer) {
    match fault {
        RouteFault::Unreachable { net, sink } => {
            expect_that(rt, wanted.end == End::Cut(*net, *sink), b"unreachable");
        }
        RouteFault::GaveUp { logs, tallies: _ } => {
            expect_that(rt, wanted.end == End::Shared, b"gave up");
            expect_logs(rt, logs, &wanted.logs);
        }
        RouteFault::NoMemory => expect_that(rt, false, b"memory"),
    }
}

// Fails unless the plain program answers so.
fn expect_answer(rt: &impl Abort, answer: &Result<Routed, RouteFault>, wanted: &Answer) {
    match answer {
        Ok(routed) => expect_routed(rt, routed, wanted),
        Err(fault) => expect_fault(rt, fault, wanted),
    }
}

// Fails unless so many workers answer as the plain program.
fn compare(
    rt: &(impl Abort + Threads + Sync),
    alloc: Global,
    graph: &Graph,
    nets: &[Net],
    rounds: u32,
    workers: u32,
    wanted: &Answer,
)
    requires rounds { (1 ≤ rounds) × (rounds ≤ 64) }
    requires nets { AreNets graph.now nets.now }
{
    expect_that(rt, graph.wires() <= 1_048_576, b"wires");
    expect_that(rt, nets.len() <= 65_536, b"nets");
    expect_that(rt, 1 <= workers, b"a worker");
    expect_that(rt, workers <= 8, b"workers");
    let answer = negotiate(rt, alloc, graph, nets, rounds, workers, &OpenGate);
    expect_answer(rt, &answer, wanted);
    drop(answer);
}

// How often each answer came.
#[derive(Clone, Copy, Debug, Default)]
struct Ends {
    at_once: u32,
    later: u32,
    unreachable: u32,
    gave_up: u32,
}

impl Ends {
    // Counts one more answer.
    fn add(&mut self, answer: &Answer) {
        let slot = match answer.end {
            End::Free if answer.logs.len() == 1 => &mut self.at_once,
            End::Free => &mut self.later,
            End::Cut(_, _) => &mut self.unreachable,
            End::Shared => &mut self.gave_up,
        };
        *slot = slot.saturating_add(1);
    }
}

// Fails unless each of these numbers of workers answers for the nets as the plain program.
fn compare_nets(
    rt: &(impl Abort + Threads + Sync),
    alloc: Global,
    graph: &Graph,
    nets: &[Net],
    rounds: u32,
    workers: &[u32],
    ends: &mut Ends,
)
    requires rounds { (1 ≤ rounds) × (rounds ≤ 64) }
    requires nets { AreNets graph.now nets.now }
{
    let wires = graph.wires() as usize;
    let wanted = plain_routes(alloc, wires, graph.edges(), nets, rounds).expect(rt, "memory");
    ends.add(&wanted);
    for count in workers {
        compare(rt, alloc, graph, nets, rounds, *count, &wanted);
    }
    drop(wanted);
}

// Draws the nets of a graph, and fails unless each of these numbers of workers answers as the plain program.
fn compare_in(
    rt: &(impl Abort + Threads + Sync),
    alloc: Global,
    words: &mut Pcg32,
    graph: &Graph,
    size: Size,
    rounds: u32,
    workers: &[u32],
    ends: &mut Ends,
)
    requires { (1 ≤ rounds) × (rounds ≤ 64) }
{
    let nets = drawn_nets(rt, alloc, words, graph, size).expect(rt, "memory");
    compare_nets(rt, alloc, graph, &nets, rounds, workers, ends);
    drop(nets);
}

// Draws a graph with this many edges and its nets, and fails unless each of these numbers of workers answers as the plain program.
fn compare_drawn(
    rt: &(impl Abort + Threads + Sync),
    alloc: Global,
    words: &mut Pcg32,
    size: Size,
    edges: u32,
    rounds: u32,
    workers: &[u32],
    ends: &mut Ends,
)
    requires { (1 ≤ rounds) × (rounds ≤ 64) }
{
    let wires = size.all();
    expect_that(rt, size.nets < wires, b"roots");
    let graph = drawn_graph(alloc, words, edges, wires, size.nets).expect(rt, "memory");
    compare_in(rt, alloc, words, &graph, size, rounds, workers, ends);
    drop(graph);
}

// Three nets in graphs of twelve wires.
const SMALL: Size = Size { nets: 3, wires: 4 };

#[test]
fn three_nets_are_routed_alike(rt: HostRuntime) {
    let alloc = rt.alloc();
    let mut words = Pcg32::seed_from_u64(1);
    let mut ends = Ends::default();
    for turn in 0..400 {
        let rounds = 1 + draw(&mut words, 8);
        let workers = [1 + rounds % 8];
        compare_drawn(
            &rt,
            alloc,
            &mut words,
            SMALL,
            22 + turn % 40,
            rounds,
            &workers,
            &mut ends,
        );
    }
    println!(rt; "{ends:?}").expect(&rt, "said");
    expect_that(&rt, ends.at_once > 20, b"at once");
    expect_that(&rt, ends.later > 20, b"later");
    expect_that(&rt, ends.unreachable > 20, b"unreachable");
    expect_that(&rt, ends.gave_up > 20, b"gave up");
}

// How many nets there are, how many wires for each, and how many edges.
const LARGE: [(u32, u32, u32); 4] = [
    (150, 10, 15000),
    (200, 12, 24000),
    (300, 14, 42000),
    (200, 8, 16000),
];

#[test]
fn some_hundred_nets_are_routed_alike(rt: HostRuntime) {
    let alloc = rt.alloc();
    let mut words = Pcg32::seed_from_u64(1);
    let mut ends = Ends::default();
    for (nets, wires, edges) in LARGE {
        let size = Size { nets, wires };
        compare_drawn(
            &rt,
            alloc,
            &mut words,
            size,
            edges,
            16,
            &[1, 2, 3, 8],
            &mut ends,
        );
    }
    println!(rt; "{ends:?}").expect(&rt, "said");
    expect_that(&rt, ends.later > 0, b"later");
    expect_that(&rt, ends.gave_up > 0, b"gave up");
}
