//! Nets of small chips that are routed over the usable rows: the short way, the long way, and no way.
ghost use Rattle.std.specs.Prelude.{◌≡◌, ◌≤◌};
ghost use Rattle.ice_negotiate_defs.specs.Rounds.{AreNets};

use crate::asked::{Asked, expect};
use crate::claims::expect_that;
use crate::trees::{expect_rows, expect_wires};
use crate::usable::next_number;
use ice_base::{NetNo, WireNo, WordIter, lines_of, words_of};
use ice_core::{Net, RoundLog};
use ice_desk::{Gate, MeetGate, OpenGate};
use ice_graph::{Graph, Tree};
use ice_negotiate::negotiate;
use ice_negotiate_defs::{RouteFault, Routed};
use ice_tests_small_chips::Sample;
use ice_tests_small_graphs::{graph_of, nets_of};
use ice_words::Tally;
use std::alloc::Global;
use std::process::Abort;
use std::thread::Threads;

// What is kept of a round, as numbers: wires with their histories; on a line for each net that moves its number and its rows; and
// overused wires with their nets.
type Round = (&'static [u8], &'static [u8], &'static [u8]);

// Fails unless no word is left.
fn expect_end(rt: &impl Abort, mut words: WordIter<'_>) {
    expect_that(rt, words.next().is_none(), b"end");
}

// Fails unless these are the wires with their histories.
fn expect_history(rt: &impl Abort, history: &[(WireNo, u64)], numbers: &[u8]) {
    let mut words = words_of(numbers);
    for (wire, height) in history {
        expect_that(rt, wire.0 == next_number(&mut words), numbers);
        expect_that(rt, *height == u64::from(next_number(&mut words)), numbers);
    }
    expect_end(rt, words);
}

// Fails unless these are the overused wires with their nets.
fn expect_over(rt: &impl Abort, over: &[(WireNo, u32)], numbers: &[u8]) {
    let mut words = words_of(numbers);
    for (wire, nets) in over {
        expect_that(rt, wire.0 == next_number(&mut words), numbers);
        expect_that(rt, *nets == next_number(&mut words), numbers);
    }
    expect_end(rt, words);
}

// Fails unless this net moved and got these rows.
fn expect_net(rt: &impl Abort, net: NetNo, tree: &Tree, numbers: &[u8]) {
    let mut words = words_of(numbers);
    expect_that(rt, net.0 == next_number(&mut words), numbers);
    for row in &tree.rows {
        expect_that(rt, row.0 == next_number(&mut words), numbers);
    }
    expect_end(rt, words);
}

// Fails unless these nets moved.
fn expect_moved(rt: &impl Abort, moved: &[(NetNo, Tree)], nets: &[u8]) {
    let mut lines = lines_of(nets);
    for (net, tree) in moved {
        let line = lines.next().expect(rt, "a net more");
        expect_net(rt, *net, tree, line.text);
    }
    expect_that(rt, lines.next().is_none(), nets);
}

// Fails unless a log is that of this round.
fn expect_log(rt: &impl Abort, log: &RoundLog, round: &Round) {
    expect_history(rt, &log.history, round.0);
    expect_moved(rt, &log.moved, round.1);
    expect_over(rt, &log.over, round.2);
}

// Fails unless the logs are those of these rounds.
fn expect_logs(rt: &impl Abort, logs: &[RoundLog], rounds: &[Round]) {
    expect_that(rt, logs.len() == rounds.len(), b"logs");
    let mut place: usize = 0;
    for round in rounds {
        let log = logs.get(place).expect(rt, "a log more");
        place = place.saturating_add(1);
        expect_that(rt, log.round as usize == place, b"round");
        expect_log(rt, log, round);
    }
}

// Fails unless the tree has these wires and these rows.
fn expect_tree(rt: &impl Abort, trees: &[Tree], number: usize, wires: &[u8], rows: &[u8]) {
    let tree = trees.get(number).expect(rt, "a tree");
    expect_wires(rt, &tree.wires, wires);
    expect_rows(rt, &tree.rows, rows);
}

// Nets, of which that of each number goes from the wire of that number to these sinks.
fn some_nets(rt: &impl Abort, alloc: Global, graph: &Graph, sinks: &[&[u8]]) -> Vec<Net>
    ensures { AreNets graph.now result.items }
{
    nets_of(alloc, graph, sinks).expect(rt, "nets")
}

// What the nets are answered.
fn negotiated<G: Gate + Sync>(
    rt: &(impl Abort + Threads + Sync),
    alloc: Global,
    graph: &Graph,
    nets: &[Net],
    rounds: u32,
    workers: u32,
    gate: &G,
) -> Result<Routed, RouteFault>
    requires rounds { (1 ≤ rounds) × (rounds ≤ 64) }
    requires workers { (1 ≤ workers) × (workers ≤ 8) }
    requires nets { AreNets graph.now nets.now }
{
    expect_that(rt, graph.wires() <= 1_048_576, b"wires");
    expect_that(rt, nets.len() <= 65_536, b"nets");
    negotiate(rt, alloc, graph, nets, rounds, workers, gate)
}

// What is answered for nets, of which that of each number goes from the wire of that number to these sinks.
fn route<G: Gate + Sync>(
    rt: &(impl Abort + Threads + Sync),
    alloc: Global,
    graph: &Graph,
    sinks: &[&[u8]],
    rounds: u32,
    workers: u32,
    gate: &G,
) -> Result<Routed, RouteFault>
    requires rounds { (1 ≤ rounds) × (rounds ≤ 64) }
    requires workers { (1 ≤ workers) × (workers ≤ 8) }
{
    let nets = some_nets(rt, alloc, graph, sinks);
    let answer = negotiated(rt, alloc, graph, nets.as_slice(), rounds, workers, gate);
    drop(nets);
    answer
}

// Fails unless so many nets were claimed in this round, and so many wires released and held.
fn expect_tally(rt: &impl Abort, tallies: &[Tally], round: usize, wanted: (u32, u64, u64)) {
    let tally = tallies.get(round).expect(rt, "a tally");
    let found = (tally.claims(), tally.releases(), tally.holds());
    expect_that(rt, found == wanted, b"tally");
}

// Both nets take the short wire 2, and then the first takes the long way over wires 3 and 4.
const LONG_WAY: [Round; 2] = [(b"", b"0 0 5\n1 1 7", b"2 2"), (b"2 1", b"0 2 4 6", b"")];

// Fails unless the first net has the long way, and the second the short one.
fn expect_long_way(rt: &impl Abort, routed: &Routed) {
    expect_logs(rt, &routed.logs, &LONG_WAY);
    expect_that(rt, routed.trees.len() == 2, b"long way");
    expect_tree(rt, &routed.trees, 0, b"0 3 4 5", b"2 4 6");
    expect_tree(rt, &routed.trees, 1, b"1 2 6", b"1 7");
    expect_tally(rt, &routed.tallies, 0, (2, 0, 6));
    expect_tally(rt, &routed.tallies, 1, (1, 3, 4));
}

// Fails unless so many workers route two nets over the short way and the long way.
fn expect_routed(rt: &(impl Abort + Threads + Sync), alloc: Global, graph: &Graph, workers: u32)
    requires { (1 ≤ workers) × (workers ≤ 8) }
{
    let answer = route(rt, alloc, graph, &[b"5", b"6"], 64, workers, &OpenGate);
    let routed = answer.expect(rt, "routes");
    expect_long_way(rt, &routed);
    drop(routed);
}

// Fails unless two workers route two nets and meet at a gate, which is passed with each net that moves.
fn expect_met(rt: &(impl Abort + Threads + Sync), alloc: Global, graph: &Graph) {
    let gate = MeetGate::new();
    let answer = route(rt, alloc, graph, &[b"5", b"6"], 64, 2, &gate);
    let routed = answer.expect(rt, "routes");
    expect_long_way(rt, &routed);
    drop(routed);
    expect_that(rt, gate.met(), b"met");
    expect_that(rt, gate.passes() == 3, b"passes");
}

// Both nets need wire 2, and move over it again and again.
const NO_WAY_ROUND: [Round; 3] = [
    (b"", b"0 0 2\n1 1 3", b"2 2"),
    (b"2 1", b"0 0 2", b"2 2"),
    (b"2 2", b"1 1 3", b"2 2"),
];

// Fails unless routing gave up after these rounds.
fn expect_given_up(rt: &impl Abort, fault: &RouteFault, rounds: &[Round]) {
    match fault {
        RouteFault::GaveUp { logs, tallies } => {
            expect_logs(rt, logs, rounds);
            expect_that(rt, tallies.len() == rounds.len(), b"tallies");
        }
        _ => expect_that(rt, false, b"given up"),
    }
}

// Fails unless two nets are not routed in three rounds.
fn expect_no_way_round(rt: &(impl Abort + Threads + Sync), alloc: Global, graph: &Graph) {
    let answer = route(rt, alloc, graph, &[b"3", b"4"], 3, 1, &OpenGate);
    let fault = answer.err().expect(rt, "a fault");
    expect_given_up(rt, &fault, &NO_WAY_ROUND);
    drop(fault);
}

// Fails unless this net doesn't reach this sink.
fn expect_unreachable(rt: &impl Abort, fault: &RouteFault, wanted: (NetNo, WireNo)) {
    match fault {
        RouteFault::Unreachable { net, sink } => {
            expect_that(rt, *net == wanted.0, b"net");
            expect_that(rt, *sink == wanted.1, b"sink");
        }
        _ => expect_that(rt, false, b"unreachable"),
    }
}

// Fails unless of these nets this one doesn't reach this sink.
fn expect_cut(
    rt: &(impl Abort + Threads + Sync),
    alloc: Global,
    graph: &Graph,
    sinks: &[&[u8]],
    wanted: (NetNo, WireNo),
) {
    let answer = route(rt, alloc, graph, sinks, 64, 1, &OpenGate);
    let fault = answer.err().expect(rt, "a fault");
    expect_unreachable(rt, &fault, wanted);
    drop(fault);
}

/// What is answered for nets.
#[derive(Clone, Copy)]
pub enum Wanted {
    /// Two nets are routed, one of them over the long way.
    LongWay,
    /// Two nets have no two ways.
    NoWayRound,
    /// One net has no way.
    Cut,
}

/// Fails unless this is answered, by 1, 2 and 8 workers where nets are routed.
pub fn expect_answer(
    rt: &(impl Abort + Threads + Sync),
    alloc: Global,
    graph: &Graph,
    wanted: Wanted,
) {
    match wanted {
        Wanted::LongWay => {
            expect_routed(rt, alloc, graph, 1);
            expect_routed(rt, alloc, graph, 2);
            expect_routed(rt, alloc, graph, 8);
            expect_met(rt, alloc, graph);
        }
        Wanted::NoWayRound => expect_no_way_round(rt, alloc, graph),
        Wanted::Cut => expect_cut(rt, alloc, graph, &[b"2"], (NetNo(0), WireNo(2))),
    }
}

// Fails unless the net of the least number is named, and of it the first target of the first sink.
fn expect_least_cut(rt: &(impl Abort + Threads + Sync), alloc: Global) {
    let graph = graph_of(alloc, 5, b"0 0 2").expect(rt, "a graph");
    expect_cut(rt, alloc, &graph, &[b"2", b"4 3\n3"], (NetNo(1), WireNo(4)));
    let wanted = (NetNo(0), WireNo(3));
    expect_cut(rt, alloc, &graph, &[b"3 2\n3 4", b"4"], wanted);
    drop(graph);
}

#[test]
fn nets_take_the_long_way_or_none(rt: HostRuntime) {
    let alloc = rt.alloc();
    let asked = Asked::Routed(Wanted::LongWay);
    expect(&rt, alloc, Sample::TwoWays, &[], asked);
    let asked = Asked::Routed(Wanted::NoWayRound);
    expect(&rt, alloc, Sample::OneWay, &[], asked);
    let asked = Asked::Routed(Wanted::Cut);
    expect(&rt, alloc, Sample::TwoTiles, &[(37, b"0 0\n")], asked);
    expect_least_cut(&rt, alloc);
}
