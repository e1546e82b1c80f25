//! An order of all points of a graph, or a cycle in it, by one walk in depth along the dependences. The walk keeps its path in
//! an array and doesn't recur. It keeps a cursor for each point, so it looks at no dependence more than twice.
ghost use Rattle.std.specs.Prelude.{◌≡◌, ℕ, ◌+◌, ◌*◌, ◌-◌, ◌<◌, ◌≤◌, List, [], length, IfOk, IfSome, IfNone};
ghost use Rattle.ice_base_values.specs.Graph.{IsWithin};
ghost use Rattle.ice_base_values.specs.Order.{At, Has};
ghost use Rattle.ice_base_values.specs.Outcome.{IsOutcome};

use crate::graph::Graph;
use std::alloc::{AllocError, Global};

/// What the search for an order finds in a graph.
#[derive(Drop)]
pub enum Outcome {
    /// All points of the graph, each once, and after all the points that it depends on.
    Order(Vec<usize>),
    /// Points of the graph, at least one and none of them twice. Each depends on the next, and the last on the first.
    Cycle(Vec<usize>),
}

// How far the search has come with a point.
#[derive(Clone, Copy)]
enum Mark {
    // The search has not entered it.
    New,
    // It is on the path.
    Open,
    // It is in the order.
    Done,
}

// The place of the first dependence, from the cursor on, that is not in the order yet; or how many dependences there are.
fn first_not_done(marks: &[Mark], reads: &[usize], cursor: usize) -> usize
    requires { (j point : ℕ) → At reads.now j point → point < length marks.now }
    ensures bound { result ≤ length reads.now }
    ensures passed { (j point : ℕ) → cursor ≤ j → j < result → At reads.now j point
        → At marks.now point Mark.Done }
    ensures stopped { (point : ℕ) → At reads.now result point → At marks.now point Mark.Done → ⊥ }
{
    for place in cursor..reads.len() {
        match marks[reads[place]] {
            Mark::Done => {}
            Mark::New | Mark::Open => return place,
        }
    }
    reads.len()
}

// Where a point stands in a list that has it.
fn place_of(points: &[usize], point: usize) -> usize
    requires { Has points.now point }
    ensures { At points.now result point }
{
    points.iter().position(|p| *p == point).unwrap()
}

// A search for an order, on its way through a graph.
#[derive(Drop)]
struct Search {
    // How far it has come with each point.
    marks: Vec<Mark>,
    // For each point its cursor: the dependences before it are in the order, and are not looked at again.
    next: Vec<usize>,
    // The way down to where it is: each point depends on the next.
    path: Vec<usize>,
    // The points that it is done with, each after all that it depends on.
    order: Vec<usize>,
}

impl Search {
    ghost use Rattle.ice_base_values.specs.SearchState.{IsSearching, GoesOn, ClosesCycle};

    // One move: goes on from the last point of the path to one that it depends on, or back. Answers where on the path a cycle
    // starts, if the point closes one.
    fn step(&mut self, graph: &Graph, point: usize) -> Result<Option<usize>, AllocError>
        requires within { IsWithin graph.now }
        requires search { IsSearching graph.now self.old }
        requires last { At self.old.path.items (length self.old.path.items - 1) point }
        ensures goes_on { IfOk result (λ cycle. IfNone cycle (GoesOn graph.now self.old self.new)) }
        ensures cycle { IfOk result (λ cycle.
            IfSome cycle (λ start. ClosesCycle graph.now self.new start)) }
    {
        let reads = graph.depends(point);
        let cursor = first_not_done(&self.marks, reads, self.next[point]);
        self.next[point] = cursor;
        if cursor == reads.len() {
            let _ = self.path.pop();
            self.marks[point] = Mark::Done;
            self.order.push(point)?;
            return Ok(None);
        }
        let read = reads[cursor];
        if let Mark::New = self.marks[read] {
            self.marks[read] = Mark::Open;
            self.path.push(read)?;
            return Ok(None);
        }
        Ok(Some(place_of(&self.path, read)))
    }
}

impl Search {
    ghost use Rattle.ice_base_values.specs.SearchState.{IsSearching, NewOnly, ClosesCycle};

    // A search that has entered no point.
    fn new(alloc: Global, points: usize) -> Result<Self, AllocError>
        ensures search { IfOk result (λ s.
            (rows : List (List ℕ)) → length rows ≡ points → IsSearching rows s) }
        ensures path { IfOk result (λ s. s.path.items ≡ []) }
    {
        Ok(Search {
            marks: vec![in alloc; Mark::New; points]?,
            next: vec![in alloc; 0; points]?,
            path: Vec::with_capacity(alloc, points)?,
            order: Vec::with_capacity(alloc, points)?,
        })
    }

    // Puts a point and all that it depends on, near and far, into the order. Answers where on the path a cycle starts, if
    // there is one among them; otherwise the path is empty again.
    fn visit(&mut self, graph: &Graph, root: usize) -> Result<Option<usize>, AllocError>
        requires within { IsWithin graph.now }
        requires search { IsSearching graph.now self.old }
        requires root { root < length graph.now }
        requires path { self.old.path.items ≡ [] }
        ensures search { IfOk result (λ cycle. IfNone cycle (IsSearching graph.now self.new)) }
        ensures path { IfOk result (λ cycle. IfNone cycle (self.new.path.items ≡ [])) }
        ensures entered { IfOk result (λ cycle. IfNone cycle (NewOnly self.old self.new root)) }
        ensures cycle { IfOk result (λ cycle.
            IfSome cycle (λ start. ClosesCycle graph.now self.new start)) }
    {
        match self.marks[root] {
            Mark::New => {}
            Mark::Open | Mark::Done => return Ok(None),
        }
        self.marks[root] = Mark::Open;
        self.path.push(root)?;
        while let Some(&point) = self.path.last() {
            if let Some(start) = self.step(graph, point)? {
                return Ok(Some(start));
            }
        }
        Ok(None)
    }
}

/// An order of all points of a graph, each after all that it depends on, or else a cycle in it. A point that depends on itself
/// is a cycle. The time is proportional to the number of points and dependences together, and so is the memory.
///
/// # Errors
/// Want of memory alone.
pub fn order(alloc: Global, graph: &Graph) -> Result<Outcome, AllocError>
    requires { IsWithin graph.now }
    ensures { IfOk result (IsOutcome graph.now) }
{
    let mut search = Search::new(alloc, graph.len())?;
    for root in 0..graph.len() {
        if let Some(start) = search.visit(graph, root)? {
            return Ok(Outcome::Cycle(Vec::from_slice(alloc, &search.path[start..])?));
        }
    }
    let Search { order, .. } = search;
    Ok(Outcome::Order(order))
}
