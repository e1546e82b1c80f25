//! What the plain program keeps of a round.
use crate::plain_rounds::State;
use ice_base::{NetNo, WireNo};
use ice_core::RoundLog;
use ice_graph::Tree;
use ice_tests_small_graphs::number_of;
use std::alloc::{AllocError, Global};

/// Counts one net more on these wires.
pub fn count(counts: &mut [u32], wires: &[WireNo]) {
    for wire in wires {
        if let Some(slot) = counts.get_mut(wire.0 as usize) {
            *slot = slot.saturating_add(1);
        }
    }
}

/// How many of the trees hold each of so many wires.
pub fn counts_of(alloc: Global, wires: usize, trees: &[Tree]) -> Result<Vec<u32>, AllocError> {
    let mut counts = vec![in alloc; 0u32; wires]?;
    for tree in trees {
        count(&mut counts, &tree.wires);
    }
    Ok(counts)
}

// The wires with a history.
fn pasts_of(alloc: Global, history: &[u64]) -> Result<Vec<(WireNo, u64)>, AllocError> {
    let mut pasts = Vec::new(alloc);
    for (wire, past) in history.iter().enumerate() {
        if *past > 0 {
            pasts.push((WireNo(number_of(wire)), *past))?;
        }
    }
    Ok(pasts)
}

// The wires that more than one net holds.
fn over_of(alloc: Global, counts: &[u32]) -> Result<Vec<(WireNo, u32)>, AllocError> {
    let mut over = Vec::new(alloc);
    for (wire, count) in counts.iter().enumerate() {
        if *count > 1 {
            over.push((WireNo(number_of(wire)), *count))?;
        }
    }
    Ok(over)
}

// An equal tree.
fn copy_of(alloc: Global, tree: &Tree) -> Result<Tree, AllocError> {
    let wires = Vec::from_slice(alloc, &tree.wires)?;
    let rows = Vec::from_slice(alloc, &tree.rows)?;
    Ok(Tree { wires, rows })
}

// The nets that moved, with their trees.
fn moves_of(
    alloc: Global,
    moved: &[bool],
    trees: &[Tree],
) -> Result<Vec<(NetNo, Tree)>, AllocError> {
    let mut moves = Vec::new(alloc);
    for (net, tree) in trees.iter().enumerate() {
        if moved.get(net).copied() == Some(true) {
            moves.push((NetNo(number_of(net)), copy_of(alloc, tree)?))?;
        }
    }
    Ok(moves)
}

/// The log of the round that left these trees, of which so many hold each wire.
pub fn log_of(alloc: Global, state: &State, counts: &[u32]) -> Result<RoundLog, AllocError> {
    let history = pasts_of(alloc, &state.history)?;
    let moved = moves_of(alloc, &state.moved, &state.trees)?;
    let over = over_of(alloc, counts)?;
    Ok(RoundLog {
        round: state.round,
        history,
        moved,
        over,
    })
}
