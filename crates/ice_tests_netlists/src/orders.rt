//! Small graphs with their orders and cycles, and one that is deep; gates that are evaluated; and the laws at concrete types.
ghost use Rattle.std.specs.Prelude.{length};
ghost use Rattle.ice_base_values.specs.Graph.{depends_of, IsWithin};
ghost use Rattle.ice_base_values.specs.Order.{IsOrder};
ghost use Rattle.ice_base_values.specs.Outcome.{IsOutcome};

use crate::claims::expect_that;
use ice_base_values::{Graph, Outcome, Points, evaluate, from_least, laws, order};
use std::alloc::{AllocError, Global};
use std::process::Abort;

// Fails unless a point is not ready and all that it reads is, and makes it ready.
fn expect_next(rt: &impl Abort, graph: &Graph, ready: &mut [bool], point: usize) {
    expect_that(rt, point < graph.len(), b"a point");
    for read in graph.depends(point) {
        expect_that(rt, ready.get(*read).copied() == Some(true), b"order");
    }
    let is_ready = ready.get_mut(point).expect(rt, "a point");
    expect_that(rt, !*is_ready, b"order");
    *is_ready = true;
}

// Fails unless an evaluator that goes through the order finds all that each point reads ready, and each point once.
fn expect_order(rt: &impl Abort, alloc: Global, graph: &Graph, order: &[usize]) {
    let mut ready = vec![in alloc; false; graph.len()].expect(rt, "memory");
    expect_that(rt, order.len() == graph.len(), b"order");
    for point in order {
        expect_next(rt, graph, &mut ready, *point);
    }
}

// Adds points with what they depend on.
fn push_rows(graph: &mut Graph, rows: &[&[usize]]) -> Result<(), AllocError> {
    for row in rows {
        graph.push(row)?;
    }
    Ok(())
}

// The graph of these rows.
fn graph_of(rt: &impl Abort, alloc: Global, rows: &[&[usize]]) -> Graph {
    let mut graph = Graph::new(alloc);
    push_rows(&mut graph, rows).expect(rt, "memory");
    graph
}

// Orders the points of a graph that has no others.
fn outcome_of(rt: &impl Abort, alloc: Global, graph: &Graph) -> Outcome
    ensures within { IsWithin graph.now }
    ensures outcome { IsOutcome graph.now result }
{
    expect_that(rt, graph.is_within(), b"points");
    order(alloc, graph).expect(rt, "memory")
}

// The order of the points of a graph that has one.
fn ordered(rt: &impl Abort, alloc: Global, graph: &Graph) -> Vec<usize>
    ensures within { IsWithin graph.now }
    ensures order { IsOrder (length graph.now) (depends_of graph.now) result.items }
{
    match outcome_of(rt, alloc, graph) {
        Outcome::Order(order) => order,
        Outcome::Cycle(_) => panic!(rt; "a cycle"),
    }
}

// The cycle of a graph that has one, begun at its least point.
fn cycle_of(rt: &impl Abort, alloc: Global, graph: &Graph) -> Vec<usize> {
    match outcome_of(rt, alloc, graph) {
        Outcome::Order(_) => panic!(rt; "an order"),
        Outcome::Cycle(cycle) => from_least(alloc, &cycle).expect(rt, "memory"),
    }
}

// What each point of a graph depends on, and the order of the points or a cycle.
type Case = (&'static [&'static [usize]], &'static [usize]);

// Nothing, one source, a chain down and a chain up; a diamond, and a point that reads one point twice.
const ORDERS: [Case; 6] = [
    (&[], &[]),
    (&[&[]], &[0]),
    (&[&[1], &[2], &[]], &[2, 1, 0]),
    (&[&[], &[0], &[1]], &[0, 1, 2]),
    (&[&[1, 2], &[3], &[3], &[]], &[3, 1, 2, 0]),
    (&[&[1, 1], &[]], &[1, 0]),
];

// Fails unless there is this order.
fn expect_ordered(rt: &impl Abort, alloc: Global, rows: &[&[usize]], expected: &[usize]) {
    let graph = graph_of(rt, alloc, rows);
    let order = ordered(rt, alloc, &graph);
    expect_that(rt, order.as_slice() == expected, b"ordered");
    expect_order(rt, alloc, &graph, &order);
}

// A loop of two, a point that depends on itself, and a loop of three behind a point that is on none.
const CYCLES: [Case; 3] = [
    (&[&[1], &[0]], &[0, 1]),
    (&[&[], &[0, 1]], &[1]),
    (&[&[3], &[2], &[3, 0], &[4, 1], &[]], &[1, 2, 3]),
];

// Fails unless there is this cycle.
fn expect_cycle(rt: &impl Abort, alloc: Global, rows: &[&[usize]], expected: &[usize]) {
    let graph = graph_of(rt, alloc, rows);
    let cycle = cycle_of(rt, alloc, &graph);
    expect_that(rt, cycle.as_slice() == expected, b"cycle");
}

fn a_graph_knows_its_points(rt: &impl Abort, alloc: Global) {
    let mut graph = Graph::new(alloc);
    expect_that(rt, graph.is_empty(), b"empty");
    push_rows(&mut graph, &[&[0, 2], &[]]).expect(rt, "memory");
    expect_that(rt, !graph.is_within(), b"point 2 is still to come");
    push_rows(&mut graph, &[&[1]]).expect(rt, "memory");
    expect_that(rt, graph.is_within(), b"within");
    expect_that(rt, graph.len() == 3, b"points");
    expect_that(rt, graph.depends(0) == [0, 2].as_slice(), b"point 0");
    expect_that(rt, graph.depends(2) == [1].as_slice(), b"point 2");
}

// Adds points that each depend on the next, and one that depends on none.
fn push_long_row(graph: &mut Graph) -> Result<(), AllocError> {
    for point in 1..100_000 {
        graph.push(&[point])?;
    }
    graph.push(&[])
}

fn a_row_of_100000_points_has_an_order(rt: &impl Abort, alloc: Global) {
    let mut graph = Graph::new(alloc);
    push_long_row(&mut graph).expect(rt, "memory");
    let order = ordered(rt, alloc, &graph);
    expect_order(rt, alloc, &graph, &order);
}

#[test]
fn orders_and_cycles_are_found(rt: HostRuntime) {
    for (rows, order) in &ORDERS {
        expect_ordered(&rt, rt.alloc(), rows, order);
    }
    for (rows, cycle) in &CYCLES {
        expect_cycle(&rt, rt.alloc(), rows, cycle);
    }
    a_graph_knows_its_points(&rt, rt.alloc());
    a_row_of_100000_points_has_an_order(&rt, rt.alloc());
}

// ---- values

// Gates of any number of inputs, each of which is 0 where all that it reads are 1. A gate that reads nothing is 0.
#[derive(Drop)]
struct Nands {
    graph: Graph,
}

impl Points for Nands {
    ghost use Rattle.std.specs.Prelude.{Bool, not};
    ghost use Rattle.std.specs.List.{list_all};

    ghost points = { λ n. length n.graph };

    ghost system = { λ n. record {
      depends = depends_of n.graph;
      local = λ p levels. not (list_all (λ (level : Bool). level) levels);
    } };

    ghost is_ready = { λ n. IsWithin n.graph };

    fn local(&self, point: usize, values: &[bool]) -> bool {
        for &read in self.graph.depends(point) {
            if !values[read] {
                return true;
            }
        }
        false
    }
}

// Fails unless the gates of these rows have these values.
fn expect_values(rt: &impl Abort, alloc: Global, rows: &[&[usize]], expected: &[bool]) {
    let graph = graph_of(rt, alloc, rows);
    let order = ordered(rt, alloc, &graph);
    let mut values = vec![in alloc; false; graph.len()].expect(rt, "memory");
    evaluate(&Nands { graph }, &order, &mut values);
    expect_that(rt, values.as_slice() == expected, b"values");
}

// What the first two of eight gates read, and the values of all.
type Sum = (&'static [usize], &'static [usize], [bool; 8]);

const LOW: bool = false;

const HIGH: bool = true;

// A gate is high that reads the one that reads nothing.
const SUMS: [Sum; 4] = [
    (&[], &[], [LOW, LOW, HIGH, HIGH, HIGH, LOW, LOW, LOW]),
    (&[6], &[], [HIGH, LOW, HIGH, LOW, HIGH, HIGH, LOW, LOW]),
    (&[], &[6], [LOW, HIGH, HIGH, HIGH, LOW, HIGH, LOW, LOW]),
    (&[6], &[6], [HIGH, HIGH, LOW, HIGH, HIGH, LOW, LOW, HIGH]),
];

// Fails unless these are the values of eight gates that make the exclusive or and the and of the first two. Four gates make the
// exclusive or, the last one inverts the first of them, and the one before it reads nothing.
fn expect_sum(rt: &impl Abort, alloc: Global, sum: Sum) {
    let rows: [&[usize]; 8] = [sum.0, sum.1, &[0, 1], &[0, 2], &[1, 2], &[3, 4], &[], &[2]];
    expect_values(rt, alloc, &rows, &sum.2);
}

#[test]
fn gates_have_their_values(rt: HostRuntime) {
    for sum in &SUMS {
        expect_sum(&rt, rt.alloc(), *sum);
    }
}

// ---- laws

#[test]
fn laws_hold_of_levels(_rt: HostRuntime) {
    laws::more_steps_keep_values::<usize, bool>();
    laws::ordered_points_have_values::<bool>();
    laws::values_are_unique::<bool>();
    laws::points_and_one_are_enough::<usize, bool>();
    laws::cycles_have_no_value::<usize, bool>();
    laws::orders_have_no_cycle();
    laws::bare_inputs_read_bare::<usize, bool>();
    laws::simulations_show_the_same::<usize, u32, bool, bool>();
}
