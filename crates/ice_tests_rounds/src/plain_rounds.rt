//! Rounds of negotiated congestion as a plain program on one thread. What wires and nets have stands in lists by their numbers.
use crate::plain_logs::{count, counts_of, log_of};
use ice_base::{NetNo, WireNo};
use ice_core::{Net, RoundLog};
use ice_graph::{Edge, Tree};
use ice_tests_small_graphs::{mark, marks_of, number_of, plain_price, plain_way};
use std::alloc::{AllocError, Global};

/// What a round begins with: its number, what is kept of earlier rounds, and the nets that move.
#[derive(Drop)]
pub struct State {
    /// The number of the round, from 1 on.
    pub round: u32,
    /// The history of each wire.
    pub history: Vec<u64>,
    /// The trees of the nets.
    pub trees: Vec<Tree>,
    /// Whether each net moves.
    pub moved: Vec<bool>,
}

// Trees without wires.
fn bare_trees(alloc: Global, nets: usize) -> Result<Vec<Tree>, AllocError> {
    let mut trees = Vec::new(alloc);
    for _ in 0..nets {
        trees.push(Tree {
            wires: Vec::new(alloc),
            rows: Vec::new(alloc),
        })?;
    }
    Ok(trees)
}

// The first round, in which all nets move.
fn first(alloc: Global, wires: usize, nets: usize) -> Result<State, AllocError> {
    let history = vec![in alloc; 0; wires]?;
    let moved = vec![in alloc; true; nets]?;
    Ok(State {
        round: 1,
        history,
        trees: bare_trees(alloc, nets)?,
        moved,
    })
}

// What each wire costs the net of a tree, where so many nets hold each wire.
fn plain_prices(
    alloc: Global,
    round: u32,
    history: &[u64],
    counts: &[u32],
    tree: &Tree,
) -> Result<Vec<u64>, AllocError> {
    let own = marks_of(alloc, counts.len(), &tree.wires)?;
    let mut prices = Vec::new(alloc);
    for (past, (count, mine)) in history.iter().zip(counts.iter().zip(&own)) {
        let others = if *mine {
            count.saturating_sub(1)
        } else {
            *count
        };
        prices.push(plain_price(round, *past, others))?;
    }
    Ok(prices)
}

// Adds the wires and rows of a way, which is told from its end.
fn join(tree: &mut Tree, marks: &mut [bool], back: &[Edge]) -> Result<(), AllocError> {
    for edge in back.iter().rev() {
        tree.wires.push(edge.to)?;
        tree.rows.push(edge.row)?;
        mark(marks, edge.to);
    }
    Ok(())
}

// The tree of one wire.
fn tree_at(alloc: Global, root: WireNo) -> Result<Tree, AllocError> {
    let mut wires = Vec::new(alloc);
    wires.push(root)?;
    Ok(Tree {
        wires,
        rows: Vec::new(alloc),
    })
}

// Joins the sinks of a net to its tree, and tells the first target of its first sink to which no walk leads.
fn join_all(
    alloc: Global,
    edges: &[Edge],
    prices: &[u64],
    net: &Net,
    tree: &mut Tree,
) -> Result<Option<WireNo>, AllocError> {
    let mut marks = marks_of(alloc, prices.len(), &tree.wires)?;
    for sink in &net.sinks {
        match plain_way(alloc, edges, prices, &marks, sink.targets())? {
            Some(way) => join(tree, &mut marks, &way.edges)?,
            None => return Ok(sink.targets().first().copied()),
        }
    }
    Ok(None)
}

// The prices of the net at a place.
fn prices_of(
    alloc: Global,
    state: &State,
    counts: &[u32],
    place: usize,
) -> Result<Vec<u64>, AllocError> {
    match state.trees.get(place) {
        Some(tree) => plain_prices(alloc, state.round, &state.history, counts, tree),
        None => Ok(Vec::new(alloc)),
    }
}

// Gives the net at a place its new tree, and tells the first target of its first sink to which no walk leads.
fn move_net(
    alloc: Global,
    edges: &[Edge],
    counts: &[u32],
    net: &Net,
    place: usize,
    state: &mut State,
) -> Result<Option<WireNo>, AllocError> {
    let prices = prices_of(alloc, state, counts, place)?;
    let mut tree = tree_at(alloc, net.root)?;
    let cut = join_all(alloc, edges, &prices, net, &mut tree)?;
    if let Some(slot) = state.trees.get_mut(place) {
        *slot = tree;
    }
    Ok(cut)
}

// Gives each net that moves its new tree, in the prices of these counts, and tells the first net that doesn't reach a sink, and the
// first target of that.
fn move_all(
    alloc: Global,
    edges: &[Edge],
    counts: &[u32],
    nets: &[Net],
    state: &mut State,
) -> Result<Option<(NetNo, WireNo)>, AllocError> {
    for (place, net) in nets.iter().enumerate() {
        if state.moved.get(place).copied() == Some(true) {
            if let Some(sink) = move_net(alloc, edges, counts, net, place, state)? {
                return Ok(Some((NetNo(number_of(place)), sink)));
            }
        }
    }
    Ok(None)
}

// Whether a net on these wires leaves one, where so many nets hold each wire, and so many of lower numbers: one of them stays.
fn leaves(round: u32, counts: &[u32], before: &[u32], wires: &[WireNo]) -> bool {
    for wire in wires {
        let count = counts.get(wire.0 as usize).copied().unwrap_or(0);
        let place = before.get(wire.0 as usize).copied().unwrap_or(0);
        if count > 1 && round.checked_rem(count) != Some(place) {
            return true;
        }
    }
    false
}

// Whether each net moves after a round.
fn plain_moves(
    alloc: Global,
    round: u32,
    counts: &[u32],
    trees: &[Tree],
) -> Result<Vec<bool>, AllocError> {
    let mut before = vec![in alloc; 0u32; counts.len()]?;
    let mut moved = Vec::new(alloc);
    for tree in trees {
        moved.push(leaves(round, counts, &before, &tree.wires))?;
        count(&mut before, &tree.wires);
    }
    Ok(moved)
}

// The history of each wire rises by the nets that hold it beyond one.
fn raise(history: &mut [u64], counts: &[u32]) {
    for (wire, count) in counts.iter().enumerate() {
        if let Some(past) = history.get_mut(wire) {
            *past = past.saturating_add(u64::from(count.saturating_sub(1)));
        }
    }
}

// What the next round begins with.
fn go_on(alloc: Global, state: &mut State, counts: &[u32]) -> Result<(), AllocError> {
    let moved = plain_moves(alloc, state.round, counts, &state.trees)?;
    raise(&mut state.history, counts);
    state.moved = moved;
    state.round = state.round.saturating_add(1);
    Ok(())
}

// Whether no two nets share a wire.
fn are_free(counts: &[u32]) -> bool {
    for count in counts {
        if *count > 1 {
            return false;
        }
    }
    true
}

/// How rounds end.
#[derive(Clone, Copy, PartialEq, Eq)]
pub enum End {
    /// No two nets share a wire.
    Free,
    /// A net doesn't reach a sink, of which this is the first target.
    Cut(NetNo, WireNo),
    /// Two nets share a wire after all rounds.
    Shared,
}

// Plays a round and keeps its log, and tells how the rounds end, where they do.
fn play(
    alloc: Global,
    edges: &[Edge],
    nets: &[Net],
    state: &mut State,
    logs: &mut Vec<RoundLog>,
) -> Result<Option<End>, AllocError> {
    let before = counts_of(alloc, state.history.len(), &state.trees)?;
    if let Some((net, sink)) = move_all(alloc, edges, &before, nets, state)? {
        return Ok(Some(End::Cut(net, sink)));
    }
    let counts = counts_of(alloc, state.history.len(), &state.trees)?;
    logs.push(log_of(alloc, state, &counts)?)?;
    if are_free(&counts) {
        return Ok(Some(End::Free));
    }
    go_on(alloc, state, &counts)?;
    Ok(None)
}

/// What the plain program answers.
#[derive(Drop)]
pub struct Answer {
    /// The log of each round in which each net reaches its sinks.
    pub logs: Vec<RoundLog>,
    /// The trees behind the last round.
    pub trees: Vec<Tree>,
    /// How the rounds end.
    pub end: End,
}

// The answer where the rounds end so.
fn ended(state: State, logs: Vec<RoundLog>, end: End) -> Answer {
    let State {
        round: _,
        history: _,
        trees,
        moved: _,
    } = state;
    Answer { logs, trees, end }
}

/// What the plain program answers for nets in a graph of so many wires.
pub fn plain_routes(
    alloc: Global,
    wires: usize,
    edges: &[Edge],
    nets: &[Net],
    rounds: u32,
) -> Result<Answer, AllocError> {
    let mut state = first(alloc, wires, nets.len())?;
    let mut logs = Vec::new(alloc);
    for _ in 0..rounds {
        if let Some(end) = play(alloc, edges, nets, &mut state, &mut logs)? {
            return Ok(ended(state, logs, end));
        }
    }
    Ok(ended(state, logs, End::Shared))
}
