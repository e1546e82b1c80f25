//! A plain search that follows the definitions: labels are lowered along all edges until nothing changes, and the taken path goes
//! back by the first row that makes a label. What wires have stands in lists by their numbers.
use ice_base::WireNo;
use ice_graph::Edge;
use std::alloc::{AllocError, Global};

// The label of a wire to which no walk leads.
const NONE: u64 = u64::MAX;

// The number that a wire has, or the greatest where it has none.
fn of_wire(numbers: &[u64], wire: WireNo) -> u64 {
    numbers.get(wire.0 as usize).copied().unwrap_or(NONE)
}

/// What a wire with this history costs in a round in which so many other nets hold it, by the rule.
pub fn plain_price(round: u32, past: u64, others: u32) -> u64 {
    let weight = u64::from(round)
        .saturating_sub(1)
        .saturating_mul(u64::from(others));
    past.saturating_add(1)
        .saturating_mul(weight.saturating_add(1))
}

/// Marks a wire.
pub fn mark(marks: &mut [bool], wire: WireNo) {
    if let Some(slot) = marks.get_mut(wire.0 as usize) {
        *slot = true;
    }
}

/// The marks of these wires among so many.
pub fn marks_of(alloc: Global, count: usize, wires: &[WireNo]) -> Result<Vec<bool>, AllocError> {
    let mut marks = vec![in alloc; false; count]?;
    for wire in wires {
        mark(&mut marks, *wire);
    }
    Ok(marks)
}

// The cost of the wire behind the edge by way of its source.
fn by_way_of(labels: &[u64], prices: &[u64], edge: Edge) -> u64 {
    of_wire(labels, edge.from).saturating_add(of_wire(prices, edge.to))
}

// Lowers the label of a wire to this cost, if it is less, and tells whether it was.
fn lower(labels: &mut [u64], wire: WireNo, cost: u64) -> bool {
    match labels.get_mut(wire.0 as usize) {
        Some(slot) if cost < *slot => {
            *slot = cost;
            true
        }
        _ => false,
    }
}

// Lowers the labels along each edge once, and tells whether one changed.
fn lower_all(edges: &[Edge], prices: &[u64], labels: &mut [u64]) -> bool {
    let mut changed = false;
    for edge in edges {
        let cost = by_way_of(labels, prices, *edge);
        if lower(labels, edge.to, cost) {
            changed = true;
        }
    }
    changed
}

// The labels before the search: 0 at the marked wires.
fn first_labels(alloc: Global, marks: &[bool]) -> Result<Vec<u64>, AllocError> {
    let mut labels = Vec::new(alloc);
    for marked in marks {
        labels.push(if *marked { 0 } else { NONE })?;
    }
    Ok(labels)
}

// The least costs from the marked wires: as many turns as there are wires are enough.
fn plain_labels(
    alloc: Global,
    edges: &[Edge],
    prices: &[u64],
    marks: &[bool],
) -> Result<Vec<u64>, AllocError> {
    let mut labels = first_labels(alloc, marks)?;
    for _turn in 0..marks.len() {
        if !lower_all(edges, prices, &mut labels) {
            return Ok(labels);
        }
    }
    Ok(labels)
}

// The first of the edges into the wire that makes its label.
fn plain_step(edges: &[Edge], prices: &[u64], labels: &[u64], wire: WireNo) -> Option<Edge> {
    let label = of_wire(labels, wire);
    for edge in edges {
        if edge.to == wire && by_way_of(labels, prices, *edge) == label {
            return Some(*edge);
        }
    }
    None
}

// The first of the targets with the least label, if one has a label.
fn plain_target(labels: &[u64], targets: &[WireNo]) -> Option<WireNo> {
    let mut best = None;
    let mut least = NONE;
    for target in targets {
        let label = of_wire(labels, *target);
        if label < least {
            best = Some(*target);
            least = label;
        }
    }
    best
}

/// A taken path: its cost, and its edges, back from the target.
#[derive(Drop)]
pub struct Way {
    /// What it costs.
    pub cost: u64,
    /// Its edges, back from the target.
    pub edges: Vec<Edge>,
}

// The edges of the taken path, back from a target with a label.
fn edges_back(
    alloc: Global,
    edges: &[Edge],
    prices: &[u64],
    labels: &[u64],
    target: WireNo,
) -> Result<Vec<Edge>, AllocError> {
    let mut back = Vec::new(alloc);
    let mut wire = target;
    for _step in 0..labels.len() {
        if of_wire(labels, wire) == 0 {
            return Ok(back);
        }
        let Some(edge) = plain_step(edges, prices, labels, wire) else {
            return Ok(back);
        };
        back.push(edge)?;
        wire = edge.from;
    }
    Ok(back)
}

/// The taken path from the marked wires to the targets. None where no walk leads there.
pub fn plain_way(
    alloc: Global,
    edges: &[Edge],
    prices: &[u64],
    marks: &[bool],
    targets: &[WireNo],
) -> Result<Option<Way>, AllocError> {
    let labels = plain_labels(alloc, edges, prices, marks)?;
    let Some(target) = plain_target(&labels, targets) else {
        return Ok(None);
    };
    Ok(Some(Way {
        cost: of_wire(&labels, target),
        edges: edges_back(alloc, edges, prices, &labels, target)?,
    }))
}
