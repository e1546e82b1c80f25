//! What is kept of a round.
ghost use Rattle.std.specs.Prelude.{◌≡◌, ◌<◌, ◌≤◌, ℕ, Some, length, slice_get, IfOk};
ghost use Rattle.ice_base.specs.declared.number.NetNo.{NetNo as Number};
ghost use Rattle.ice_negotiate_defs.specs.Trees.{route_of};
ghost use Rattle.ice_negotiate_defs.specs.Rounds.{BeginsWith, past_of};
ghost use Rattle.ice_negotiate_defs.specs.Logs.{AreTreesOf, IsLog, IsOpeningLog, beyond};
ghost use Rattle.ice_negotiate_defs.specs.Fitting.{wholes};

use crate::start::keeping_nets;
use ice_base::{NetNo, NoMemory, WireNo};
use ice_core::{MOST_NETS, MOST_WIRES, RoundLog, RoundPrices};
use ice_graph::Tree;
use ice_negotiate_defs::Kept;
use std::alloc::Global;

// The wires that have a history, each with it.
#[tactic(auto, using(crate::proofs::Listing::beyond_yes, crate::proofs::Listing::beyond_no, crate::proofs::Listing::beyond_all))]
fn histories(alloc: Global, history: &[u64]) -> Result<Vec<(WireNo, u64)>, NoMemory>
    requires { length history.now ≤ MOST_WIRES }
    ensures { IfOk result (λ list. list.items ≡ beyond 0 0 history.now) }
{
    let mut list = Vec::new(alloc);
    for wire in 0..history.len() {
        if history[wire] > 0 {
            list.push((WireNo(wire as u32), history[wire]))?;
        }
    }
    Ok(list)
}

// The wires that more than one net holds, each with the number of these nets.
#[tactic(auto, using(crate::proofs::Listing::beyond_yes, crate::proofs::Listing::beyond_no, crate::proofs::Listing::beyond_all))]
fn overused(alloc: Global, counts: &[u32]) -> Result<Vec<(WireNo, u32)>, NoMemory>
    requires { length counts.now ≤ MOST_WIRES }
    ensures { IfOk result (λ list. list.items ≡ beyond 1 0 counts.now) }
{
    let mut list = Vec::new(alloc);
    for wire in 0..counts.len() {
        if counts[wire] > 1 {
            list.push((WireNo(wire as u32), counts[wire]))?;
        }
    }
    Ok(list)
}

// A copy of the tree.
pub fn copy_of(tree: &Tree) -> Result<Tree, NoMemory>
    ensures { IfOk result (λ copy. route_of copy ≡ route_of tree.now) }
{
    Ok(Tree {
        wires: tree.wires.clone()?,
        rows: tree.rows.clone()?,
    })
}

// The nets that moved, each with a copy of its tree.
#[tactic(auto, using(crate::proofs::Listing::trees_none, crate::proofs::Listing::trees_more, crate::proofs::Listing::trees_all))]
fn moved_trees(
    alloc: Global,
    moved: &[NetNo],
    trees: &[Tree],
) -> Result<Vec<(NetNo, Tree)>, NoMemory>
    requires { (k : ℕ) (net : Number) → slice_get moved.now k ≡ Some net
        → net.0 < length trees.now }
    ensures { IfOk result (λ list. AreTreesOf trees.now moved.now list.items) }
{
    let mut list = Vec::new(alloc);
    for net in moved {
        let copy = copy_of(&trees[net.0 as usize])?;
        list.push((*net, copy))?;
    }
    Ok(list)
}

// The log of an opening in which these nets keep these trees.
pub fn opening_log(alloc: Global, kept: &[Kept], trees: &[Tree]) -> Result<RoundLog, NoMemory>
    requires few { length kept.now ≤ MOST_NETS }
    requires begun { BeginsWith (Some (wholes kept.now)) trees.now }
    ensures { IfOk result (IsOpeningLog (wholes kept.now)) }
{
    let keeping = keeping_nets(alloc, kept)?;
    let moved = moved_trees(alloc, &keeping, trees)?;
    Ok(RoundLog {
        round: 0,
        history: Vec::new(alloc),
        moved,
        over: Vec::new(alloc),
    })
}

// The log of a round that left these trees and counts.
pub fn log_of(
    alloc: Global,
    prices: &RoundPrices,
    moved: &[NetNo],
    trees: &[Tree],
    counts: &[u32],
) -> Result<RoundLog, NoMemory>
    requires history { length prices.now.history.items ≤ MOST_WIRES }
    requires counts { length counts.now ≤ MOST_WIRES }
    requires moved { (k : ℕ) (net : Number) → slice_get moved.now k ≡ Some net
        → net.0 < length trees.now }
    ensures { IfOk result
        (IsLog (past_of prices.now.round prices.now.history.items moved.now trees.now counts.now)) }
{
    Ok(RoundLog {
        round: prices.round,
        history: histories(alloc, &prices.history)?,
        moved: moved_trees(alloc, moved, trees)?,
        over: overused(alloc, counts)?,
    })
}
