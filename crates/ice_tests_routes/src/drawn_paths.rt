//! Costs and taken paths in generated graphs, against a plain search.
ghost use Rattle.std.specs.Prelude.{◌≡◌, ◌<◌, ◌≤◌, ℕ, is_some, length, slice_index, IfOk};
ghost use Rattle.ice_core.specs.Congestion.{ArePrices};
ghost use Rattle.ice_path.specs.Room.{AreWires, IsFor};

use crate::claims::expect_that;
use ice_base::{NoMemory, WireNo};
use ice_core::Prices;
use ice_graph::{Edge, Graph, Tree};
use ice_path::{Scratch, connect, connect_ahead, path};
use ice_tests_small_graphs::{Way, add_wire, draw, drawn_graph, marks_of, plain_price, plain_way};
use rand_core::SeedableRng;
use rand_pcg::Pcg32;
use std::alloc::{AllocError, Global};
use std::process::Abort;

const WIRES: u32 = 7;

// Drawn histories of the wires.
fn drawn_history(rt: &impl Abort, alloc: Global, words: &mut Pcg32) -> Vec<u64>
    ensures length { length result.items ≡ 7 }
    ensures small { (w : ℕ) → slice_index result.items w ≤ 3 }
{
    let (a, b, c, d) = (
        draw(words, 4),
        draw(words, 4),
        draw(words, 4),
        draw(words, 4),
    );
    vec![in alloc; 0, a as u64, b as u64, 0, c as u64, d as u64, 1].expect(rt, "memory")
}

// Drawn numbers of the other nets on the wires.
fn drawn_others(rt: &impl Abort, alloc: Global, words: &mut Pcg32) -> Vec<u32>
    ensures length { length result.items ≡ 7 }
    ensures small { (w : ℕ) → slice_index result.items w ≤ 3 }
{
    let (a, b, c, d) = (
        draw(words, 3),
        draw(words, 3),
        draw(words, 3),
        draw(words, 3),
    );
    vec![in alloc; a, 0, b, 1, 0, c, d].expect(rt, "memory")
}

// Drawn prices of the wires.
fn drawn_prices(rt: &impl Abort, alloc: Global, words: &mut Pcg32) -> Prices
    ensures prices { ArePrices result }
    ensures length { length result.history.items ≡ 7 }
{
    let round = draw(words, 3) + 1;
    let history = drawn_history(rt, alloc, words);
    let others = drawn_others(rt, alloc, words);
    Prices {
        round,
        history,
        others,
    }
}

// Drawn wires of a graph.
fn drawn_wires(
    alloc: Global,
    words: &mut Pcg32,
    count: u32,
    wires: u32,
) -> Result<Vec<WireNo>, AllocError>
    requires { 0 < wires }
    ensures { IfOk result (λ list. AreWires wires list.items) }
{
    let mut list = Vec::new(alloc);
    for _ in 0..count {
        add_wire(&mut list, wires, draw(words, wires))?;
    }
    Ok(list)
}

// What each wire costs, by the rule.
fn plain_prices(alloc: Global, prices: &Prices) -> Result<Vec<u64>, AllocError> {
    let mut costs = Vec::new(alloc);
    for (past, others) in prices.history.iter().zip(&prices.others) {
        costs.push(plain_price(prices.round, *past, *others))?;
    }
    Ok(costs)
}

// The path that the plain search takes.
fn wanted_way(
    alloc: Global,
    graph: &Graph,
    prices: &Prices,
    tree: &Tree,
    targets: &[WireNo],
) -> Result<Option<Way>, AllocError> {
    let costs = plain_prices(alloc, prices)?;
    let marks = marks_of(alloc, graph.wires() as usize, &tree.wires)?;
    plain_way(alloc, graph.edges(), &costs, &marks, targets)
}

// Fails unless these are the edges of a way.
fn expect_edges(rt: &impl Abort, edges: &[Edge], way: &Way) {
    expect_that(rt, edges.len() == way.edges.len(), b"edges");
    let mut left = way.edges.len();
    for edge in edges {
        left = left.saturating_sub(1);
        expect_that(rt, way.edges.get(left).copied() == Some(*edge), b"edges");
    }
}

// Fails unless a found way has this cost, or none is wanted.
fn expect_cost(rt: &impl Abort, found: Option<u64>, wanted: &Option<Way>) {
    match wanted {
        Some(way) => expect_that(rt, found == Some(way.cost), b"cost"),
        None => expect_that(rt, found.is_none(), b"cost"),
    }
}

// Fails unless a found way is the wanted one, by its cost and its edges.
fn expect_way(rt: &impl Abort, found: Option<u64>, scratch: &Scratch, wanted: &Option<Way>)
    requires { is_some scratch.now.path ≡ is_some found }
{
    expect_cost(rt, found, wanted);
    if let (Some(_), Some(way)) = (found, wanted) {
        expect_edges(rt, path(scratch), way);
    }
}

// Fails unless a plain search gives the same cost and the same path to these targets as both searches of the product.
fn compare(
    rt: &impl Abort,
    alloc: Global,
    graph: &Graph,
    prices: &Prices,
    tree: &Tree,
    targets: &[WireNo],
    scratch: &mut Scratch,
)
    requires prices { ArePrices prices.now }
    requires wires { length prices.now.history.items ≡ graph.now.wires }
    requires tree { AreWires graph.now.wires tree.now.wires.items }
    requires targets { AreWires graph.now.wires targets.now }
    requires some { 0 < length targets.now }
    requires scratch { IsFor graph.now scratch.old }
    ensures { IsFor graph.now scratch.new }
{
    let wanted = wanted_way(alloc, graph, prices, tree, targets).expect(rt, "memory");
    let found = connect(graph, prices, tree, targets, scratch);
    expect_way(rt, found, scratch, &wanted);
    let found = connect_ahead(graph, prices, tree, targets, scratch);
    expect_way(rt, found, scratch, &wanted);
}

// Compares the ways to a target behind so many drawn ones.
fn compare_to(
    rt: &impl Abort,
    alloc: Global,
    graph: &Graph,
    prices: &Prices,
    tree: &Tree,
    words: &mut Pcg32,
    wanted: (u32, u32),
    scratch: &mut Scratch,
)
    requires prices { ArePrices prices.now }
    requires wires { length prices.now.history.items ≡ graph.now.wires }
    requires tree { AreWires graph.now.wires tree.now.wires.items }
    requires scratch { IsFor graph.now scratch.old }
    ensures { IsFor graph.now scratch.new }
{
    let (count, target) = wanted;
    expect_that(rt, target < graph.wires(), b"target");
    let mut targets = drawn_wires(alloc, words, count, graph.wires()).expect(rt, "memory");
    add_wire(&mut targets, graph.wires(), target).expect(rt, "memory");
    expect_that(rt, !targets.is_empty(), b"targets");
    compare(rt, alloc, graph, prices, tree, &targets, scratch);
    drop(targets);
}

// Compares the ways to each wire of the graph, alone and behind two drawn ones.
fn compare_all(
    rt: &impl Abort,
    alloc: Global,
    graph: &Graph,
    prices: &Prices,
    tree: &Tree,
    words: &mut Pcg32,
)
    requires prices { ArePrices prices.now }
    requires wires { length prices.now.history.items ≡ graph.now.wires }
    requires tree { AreWires graph.now.wires tree.now.wires.items }
{
    let mut scratch = Scratch::new(alloc, graph).expect(rt, "memory");
    for target in 0..graph.wires() {
        compare_to(
            rt,
            alloc,
            graph,
            prices,
            tree,
            words,
            (0, target),
            &mut scratch,
        );
        compare_to(
            rt,
            alloc,
            graph,
            prices,
            tree,
            words,
            (2, target),
            &mut scratch,
        );
    }
    drop(scratch);
}

// Puts each wire into one of so many sets, or into none.
fn put_sets(words: &mut Pcg32, sets: &mut [Option<u8>], count: u32)
    ensures { length sets.new ≡ length sets.old }
{
    for wire in 0..sets.len() {
        let set = draw(words, count.saturating_add(1));
        if set < count {
            sets[wire] = Some(set.min(255) as u8);
        }
    }
}

// Has the graph know the hops to as many drawn sets, so that a sink's targets may be of one set, of several or of none.
fn aim_drawn(
    alloc: Global,
    words: &mut Pcg32,
    graph: &mut Graph,
    count: u32,
) -> Result<(), NoMemory>
    ensures { graph.new ≡ graph.old }
{
    let mut sets = vec![in alloc; None; graph.wires() as usize]?;
    put_sets(words, &mut sets, count);
    graph.aim(alloc, sets, count as usize)
}

// Draws a graph with this many edges, which knows the hops to some sets, prices and a tree of two wires, which may be one, and
// compares.
fn compare_drawn(rt: &impl Abort, alloc: Global, words: &mut Pcg32, count: u32) {
    let mut graph = drawn_graph(alloc, words, count, WIRES, 0).expect(rt, "memory");
    let sets = draw(words, 4);
    aim_drawn(alloc, words, &mut graph, sets).expect(rt, "memory");
    let prices = drawn_prices(rt, alloc, words);
    let wires = drawn_wires(alloc, words, 2, WIRES).expect(rt, "memory");
    let tree = Tree {
        wires,
        rows: Vec::new(alloc),
    };
    compare_all(rt, alloc, &graph, &prices, &tree, words);
    drop(tree);
    drop(prices);
    drop(graph);
}

#[test]
fn generated_graphs_agree(rt: HostRuntime) {
    let alloc = rt.alloc();
    let mut words = Pcg32::seed_from_u64(1);
    for turn in 0..400 {
        compare_drawn(&rt, alloc, &mut words, turn % 20);
    }
}
