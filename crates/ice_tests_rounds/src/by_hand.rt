//! Two rounds of two nets by hand: on the words of each round two hands, each in a thread.
ghost use Rattle.std.specs.Prelude.{◌≡◌};
ghost use Rattle.ice_words.specs.Grips.{IsHandOf};
ghost use Rattle.ice_worker.specs.Tasks.{ArePlayable};
ghost use Rattle.ice_negotiate_round.specs.Jobs.{AreStarted};
ghost use Rattle.ice_tests_rounds.specs.Hands.{IsFreshOf, HasWorked};

use crate::tasks::{first_round, second_round};
use ice_base::RowNo;
use ice_core::{RoundPrices, Task};
use ice_desk::{Gate, MeetGate, OpenGate};
use ice_graph::{Graph, Tree};
use ice_tests_small_graphs::{TWO_WAYS, graph_of};
use ice_words::{Counts, Hand, Words};
use ice_worker::{Kit, work};
use std::alloc::Global;
use std::process::Abort;
use std::thread::{Threads, join_mut};

// One worker's work: its kit has the trees that it made.
fn kit_behind<G: Gate>(
    rt: &impl Abort,
    alloc: Global,
    words: &Words,
    hand: &mut Hand,
    graph: &Graph,
    prices: &RoundPrices,
    tasks: &[Task],
    worker: u32,
    gate: &G,
) -> Kit
    requires started { AreStarted graph.now prices.now tasks.now words.now }
    requires hand { IsFreshOf words.now hand.old }
    ensures { HasWorked words.now hand.old hand.new }
{
    let mut kit = Kit::new(alloc, graph).expect(rt, "memory");
    let done = work(
        alloc, words, hand, graph, prices, tasks, worker, gate, &mut kit,
    );
    assert!(rt; done.is_ok(), "a worker stopped");
    kit
}

// The same without the kit.
fn work_alone<G: Gate>(
    rt: &impl Abort,
    alloc: Global,
    words: &Words,
    hand: &mut Hand,
    graph: &Graph,
    prices: &RoundPrices,
    tasks: &[Task],
    worker: u32,
    gate: &G,
)
    requires started { AreStarted graph.now prices.now tasks.now words.now }
    requires hand { IsFreshOf words.now hand.old }
    ensures { HasWorked words.now hand.old hand.new }
{
    let kit = kit_behind(rt, alloc, words, hand, graph, prices, tasks, worker, gate);
    drop(kit);
}

// The work of two, at once.
fn work_both<G: Gate + Sync, R: Abort + Threads + Sync>(
    rt: &R,
    alloc: Global,
    words: &Words,
    one: &mut Hand,
    other: &mut Hand,
    graph: &Graph,
    prices: &RoundPrices,
    tasks: &[Task],
    gate: &G,
)
    requires started { AreStarted graph.now prices.now tasks.now words.now }
    requires hands { IsFreshOf words.now one.old × IsFreshOf words.now other.old }
    ensures { HasWorked words.now one.old one.new × HasWorked words.now other.old other.new }
{
    join_mut(
        rt,
        &mut || work_alone(rt, alloc, words, one, graph, prices, tasks, 0, gate),
        &mut || work_alone(rt, alloc, words, other, graph, prices, tasks, 1, gate),
    );
}

// The counts behind the round.
fn counts_behind<G: Gate + Sync, R: Abort + Threads + Sync>(
    rt: &R,
    alloc: Global,
    graph: &Graph,
    prices: &RoundPrices,
    tasks: &[Task],
    gate: &G,
) -> Counts
    requires { ArePlayable graph.now prices.now tasks.now }
{
    let started = Words::start(alloc, graph.wires(), tasks, &prices.counts);
    let (words, mut hand) = started.expect(rt, "memory");
    let mut other = words.split(&mut hand);
    work_both(
        rt, alloc, &words, &mut hand, &mut other, graph, prices, tasks, gate,
    );
    words.join(&mut hand, other);
    words.close(hand)
}

// Fails unless these are the counts behind the round, and so much overuse came and went.
fn expect_counts(rt: &impl Abort, counts: &Counts, wanted: &[u32], posted: (u64, u64)) {
    assert!(rt; counts.all() == wanted, "{:?}", counts.all());
    let found = counts.posted();
    assert!(rt; found == posted, "{found:?}");
}

// Fails unless the overuse of the counts is this.
fn expect_over(rt: &impl Abort, counts: &Counts, wanted: u64) {
    let over = counts.over();
    assert!(rt; over == wanted, "{over}");
}

#[test]
fn overuse_comes_in_one_round_and_goes_in_the_next(rt: HostRuntime) {
    let alloc = rt.alloc();
    let graph = graph_of(alloc, 7, TWO_WAYS).expect(&rt, "a graph");
    let gate = MeetGate::new();
    let first = first_round(&rt, alloc, &graph);
    let counts = counts_behind(&rt, alloc, &graph, &first.prices, &first.tasks, &gate);
    expect_counts(&rt, &counts, &[1, 1, 2, 0, 0, 1, 1], (1, 0));
    expect_over(&rt, &counts, 1);
    let second = second_round(&rt, alloc, &graph, 0);
    let counts = counts_behind(&rt, alloc, &graph, &second.prices, &second.tasks, &gate);
    expect_counts(&rt, &counts, &[1, 1, 1, 1, 1, 1, 1], (0, 1));
    expect_over(&rt, &counts, 0);
    assert!(rt; gate.met() && gate.passes() == 3);
}

// One overuse goes and another comes: what is posted are both numbers, and not their difference.
#[test]
fn overuse_goes_and_comes_in_one_round(rt: HostRuntime) {
    let alloc = rt.alloc();
    let graph = graph_of(alloc, 7, TWO_WAYS).expect(&rt, "a graph");
    let round = second_round(&rt, alloc, &graph, 1);
    let counts = counts_behind(&rt, alloc, &graph, &round.prices, &round.tasks, &OpenGate);
    expect_counts(&rt, &counts, &[1, 1, 1, 2, 1, 1, 1], (1, 1));
    expect_over(&rt, &counts, 1);
}

// Fails unless the tree is that of the task of this number, with these rows.
fn expect_tree(rt: &impl Abort, made: Option<&(u32, Tree)>, number: u32, rows: &[RowNo]) {
    let Some((task, tree)) = made else {
        panic!(rt; "no tree of task {number}");
    };
    assert!(rt;
        *task == number && tree.rows.as_slice() == rows,
        "{task} {tree:?}"
    );
}

// The trees that one worker makes of both tasks.
fn expect_trees(rt: &impl Abort, alloc: Global, graph: &Graph, prices: &RoundPrices, tasks: &[Task])
    requires { ArePlayable graph.now prices.now tasks.now }
{
    let started = Words::start(alloc, graph.wires(), tasks, &prices.counts);
    let (words, mut hand) = started.expect(rt, "memory");
    let kit = kit_behind(
        rt, alloc, &words, &mut hand, graph, prices, tasks, 0, &OpenGate,
    );
    let trees = kit.trees();
    expect_tree(rt, trees.get(0), 0, &[RowNo(0), RowNo(5)]);
    expect_tree(rt, trees.get(1), 1, &[RowNo(1), RowNo(7)]);
    assert!(rt; trees.len() == 2, "{}", trees.len());
    drop(words.close(hand));
}

#[test]
fn a_kit_has_the_trees_that_its_worker_made(rt: HostRuntime) {
    let alloc = rt.alloc();
    let graph = graph_of(alloc, 7, TWO_WAYS).expect(&rt, "a graph");
    let first = first_round(&rt, alloc, &graph);
    expect_trees(&rt, alloc, &graph, &first.prices, &first.tasks);
}
