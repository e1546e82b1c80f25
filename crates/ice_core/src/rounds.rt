//! Which nets move after a round.
ghost use Rattle.std.specs.Prelude.{◌≡◌, ◌+◌, ◌<◌, ◌≤◌, ◌%◌, ◌++◌, ℕ, [], ◌∷◌, List, Some, length, slice_get, slice_index, take, drop, IfOk, OnOk, if◌then◌else◌};
ghost use Rattle.std.specs.List.{list_any};
ghost use Rattle.ice_base.specs.declared.number.WireNo.{WireNo as Wire};
ghost use Rattle.ice_core.specs.Moves.{IsOccupancy, AreBelow, AreWithin, leaves, leaves_at, movers_of, HaveCounted, AreCounted};

use crate::limits::MOST_NETS;
use ice_base::{NetNo, NoMemory, WireNo};
use ice_graph::Tree;
use std::alloc::Global;

// A net with this place among the holders of a wire is not the one that stays on it.
fn leaves_wire(round: u32, count: u32, place: u32) -> bool
    ensures { result ≡ leaves round count place }
{
    if count <= 1 {
        return false;
    }
    place != round % count
}

// A net that holds these wires has to leave one of them.
#[tactic(auto, using(crate::proofs::Moving::any_here))]
fn moves(round: u32, counts: &[u32], seen: &[u32], wires: &[WireNo]) -> bool
    requires lengths { length seen.now ≡ length counts.now }
    requires wires { AreBelow (length counts.now) wires.now }
    ensures { result ≡ list_any (leaves_at round counts.now seen.now) wires.now }
{
    for wire in wires {
        if leaves_wire(round, counts[wire.0 as usize], seen[wire.0 as usize]) {
            return true;
        }
    }
    false
}

// Counts the net on one of its wires, unless it was counted there already.
#[tactic(auto, using(crate::proofs::Moving::counted_again, crate::proofs::Moving::counted_new))]
fn count_one(seen: &mut [u32], marks: &mut [u32], net: u32, wire: u32)
    requires lengths { (length marks.old ≡ length seen.old) × (wire < length seen.old) }
    requires fits { (slice_index seen.old wire ≤ MOST_NETS) × (net < MOST_NETS) }
    ensures { (places : List ℕ) (wires : List Wire) (k : ℕ) (v : Wire) → slice_get wires k ≡ Some v
        → v.0 ≡ wire → HaveCounted places net wires k seen.old marks.old
        → HaveCounted places net wires (k + 1) seen.new marks.new }
{
    let mark = net + 1;
    if marks[wire as usize] == mark {
        return;
    }
    marks[wire as usize] = mark;
    seen[wire as usize] += 1;
}

// Counts the net on its wires.
#[tactic(auto, using(crate::proofs::Moving::counted_none, crate::proofs::Moving::counted_fits))]
fn count(seen: &mut [u32], marks: &mut [u32], net: u32, wires: &[WireNo])
    requires lengths { length marks.old ≡ length seen.old }
    requires wires { AreBelow (length seen.old) wires.now }
    requires net { net < MOST_NETS }
    requires places { (w : ℕ) → w < length seen.old → slice_index seen.old w ≤ net }
    requires low { (w : ℕ) → w < length seen.old → slice_index marks.old w ≤ net }
    ensures { HaveCounted seen.old net wires.now (length wires.now) seen.new marks.new }
{
    for wire in wires {
        count_one(seen, marks, net, wire.0);
    }
}

// Appends the net where it moves.
fn add(nets: &mut Vec<NetNo>, net: NetNo, moves: bool) -> Result<(), NoMemory>
    ensures { OnOk result
        (nets.new.items ≡ (if moves then nets.old.items ++ net ∷ [] else nets.old.items)) }
{
    if moves {
        nets.push(net)?;
    }
    Ok(())
}

/// How many of the trees hold each wire, for the wires below `wires`. There are at most 65,536 trees, and
/// each of their wires is below `wires`. It answers `NoMemory` where it finds no memory for its lists.
pub fn holders(alloc: Global, wires: usize, trees: &[Tree]) -> Result<Vec<u32>, NoMemory>
    requires trees { length trees.now ≤ MOST_NETS }
    requires within { AreWithin wires trees.now }
    ensures long { IfOk result (λ counts. length counts.items ≡ wires) }
    ensures counts { IfOk result (λ counts. IsOccupancy counts.items trees.now) }
{
    let mut seen = vec![in alloc; 0u32; wires]?;
    let mut marks = vec![in alloc; 0u32; wires]?;
    count_all(trees, &mut seen, &mut marks);
    Ok(seen)
}

// Counts all nets on their wires, from counts of no net.
#[tactic(auto, using(crate::proofs::Moving::counted_first, crate::proofs::Moving::counted_low))]
fn count_all(trees: &[Tree], seen: &mut [u32], marks: &mut [u32])
    requires trees { length trees.now ≤ MOST_NETS }
    requires within { AreWithin (length seen.old) trees.now }
    requires lengths { length marks.old ≡ length seen.old }
    requires seen { (w : ℕ) → slice_index seen.old w ≡ 0 }
    requires marks { (w : ℕ) → slice_index marks.old w ≡ 0 }
    ensures counts { IsOccupancy seen.new trees.now }
    ensures long { length seen.new ≡ length seen.old }
{
    for net in 0..trees.len() {
        count(seen, marks, net as u32, &trees[net].wires);
    }
}

/// The nets that move in the round after `round`, by rising number. A net moves where it holds a wire that
/// more than one net holds and of which it is not the one that stays: of the holders of a wire, by rising
/// number and counted from 0, the one at the place `round` modulo their number stays.
///
/// `trees` are the routes of the nets by number, at most 65,536, and `counts` says how many of them hold
/// each wire. The round is from 1 to 64. It answers `NoMemory` where it finds no memory for its lists.
pub fn movers(
    alloc: Global,
    round: u32,
    counts: &[u32],
    trees: &[Tree],
) -> Result<Vec<NetNo>, NoMemory>
    requires round { (1 ≤ round) × (round ≤ 64) }
    requires trees { length trees.now ≤ MOST_NETS }
    requires counts { IsOccupancy counts.now trees.now }
    ensures { IfOk result (λ nets. nets.items ≡ movers_of round trees.now) }
{
    let mut seen = vec![in alloc; 0u32; counts.len()]?;
    let mut marks = vec![in alloc; 0u32; counts.len()]?;
    let mut nets = Vec::new(alloc);
    fill(round, counts, trees, &mut seen, &mut marks, &mut nets)?;
    Ok(nets)
}

// Appends the nets that move, from counts of no net.
fn fill(
    round: u32,
    counts: &[u32],
    trees: &[Tree],
    seen: &mut [u32],
    marks: &mut [u32],
    nets: &mut Vec<NetNo>,
) -> Result<(), NoMemory>
    requires trees { length trees.now ≤ MOST_NETS }
    requires counts { IsOccupancy counts.now trees.now }
    requires lengths { (length seen.old ≡ length counts.now)
        × (length marks.old ≡ length counts.now) }
    requires seen { (w : ℕ) → slice_index seen.old w ≡ 0 }
    requires marks { (w : ℕ) → slice_index marks.old w ≡ 0 }
    requires nets { nets.old.items ≡ [] }
    ensures { OnOk result (nets.new.items ≡ movers_of round trees.now) }
{
    for net in 0..trees.len() {
        step(
            round,
            counts,
            &trees[net].wires,
            net as u32,
            seen,
            marks,
            nets,
        )?;
    }
    Ok(())
}

// Appends the net where it moves, and counts it on its wires.
fn step(
    round: u32,
    counts: &[u32],
    wires: &[WireNo],
    net: u32,
    seen: &mut [u32],
    marks: &mut [u32],
    nets: &mut Vec<NetNo>,
) -> Result<(), NoMemory>
    requires lengths { (length seen.old ≡ length counts.now)
        × (length marks.old ≡ length counts.now) }
    requires wires { AreBelow (length counts.now) wires.now }
    requires net { net < MOST_NETS }
    requires places { (w : ℕ) → w < length seen.old → slice_index seen.old w ≤ net }
    requires low { (w : ℕ) → w < length seen.old → slice_index marks.old w ≤ net }
    ensures counted { OnOk result
        (HaveCounted seen.old net wires.now (length wires.now) seen.new marks.new) }
    ensures nets { OnOk result
        (nets.new.items ≡ (if list_any (leaves_at round counts.now seen.old) wires.now
        then nets.old.items ++ record { 0 = net } ∷ [] else nets.old.items)) }
{
    let leaves = moves(round, counts, seen, wires);
    add(nets, NetNo(net), leaves)?;
    count(seen, marks, net, wires);
    Ok(())
}
