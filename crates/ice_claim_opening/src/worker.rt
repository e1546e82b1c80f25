//! One worker of the opening: it keeps whole nets, or gives them back whole.
ghost use Rattle.std.specs.Prelude.{◌≡◌, ◌+◌, ◌<◌, ◌≤◌, ℕ, [], ◌∷◌, false, true, length, map, take, Some, slice_get, slice_index, vec_capacity, IfSome, IfNone};
ghost use Rattle.ice_core.specs.Routes.{numbers, times, wires_of, lists_of};
ghost use Rattle.ice_claim.specs.Claims.{total, claims_on, ends_of, takes_on, takes_pair, losing, own, with_own};
ghost use Rattle.ice_claim.specs.Rule.{AreLists, IsLone, IsShared};
ghost use Rattle.ice_claim.specs.Grips.{IsPassOf};
ghost use Rattle.ice_claim_opening.specs.Notes.{AreNotes, AreInTurn};
ghost use Rattle.ice_claim_opening.specs.Workers.{took, took_until, IsFresh, IsTableOf};

use crate::notes::Note;
use ice_base::{NetNo, WireNo};
use ice_claim::{ClaimTable, Pass};
use ice_desk::Gate;

// Takes the wires of the net's list in order, up to the first that is taken already, whose place it answers.
fn take_all(table: &ClaimTable, pass: &mut Pass, net: u32, list: &[WireNo]) -> Option<usize>
    requires of { IsPassOf table.now pass.old }
    requires parts { 1 ≤ length pass.old.view.parts }
    requires list { wires_of table.now.lists net ≡ numbers list.now }
    requires once { (w : ℕ) → times w (numbers list.now) ≤ 1 }
    requires claimed { 1 ≤ total (claims_on net) pass.old.view }
    requires none { (w : ℕ) → total (takes_pair net w) pass.old.view ≡ 0 }
    ensures of { IsPassOf table.now pass.new }
    ensures all { IfNone result
        (pass.new.view ≡ with_own (took net (numbers list.now)) pass.old.view) }
    ensures until { IfSome result (λ k. (k < length list.now) × (pass.new.view
        ≡ with_own (took_until net (take k (numbers list.now)) (slice_index (numbers list.now) k))
        pass.old.view)) }
    ensures shared { IfSome result (λ k.
        IsShared table.now.lists net (slice_index (numbers list.now) k)) }
    ensures lone { IsLone pass.old.view
        → IfSome result (λ k.
        1 ≤ total (takes_on (slice_index (numbers list.now) k)) pass.old.view) }
{
    for k in 0..list.len() {
        if !table.take(pass, net, list[k]) {
            return Some(k);
        }
    }
    None
}

// Keeps the net of this list whole, or answers the wire that it lost and gives it back whole.
fn keep_net(table: &ClaimTable, pass: &mut Pass, net: u32, list: &[WireNo]) -> Option<WireNo>
    requires of { IsPassOf table.now pass.old }
    requires parts { 1 ≤ length pass.old.view.parts }
    requires list { wires_of table.now.lists net ≡ numbers list.now }
    requires once { (w : ℕ) → times w (numbers list.now) ≤ 1 }
    requires claimed { 1 ≤ total (claims_on net) pass.old.view }
    requires none { (w : ℕ) → total (takes_pair net w) pass.old.view ≡ 0 }
    ensures of { IsPassOf table.now pass.new }
    ensures kept { IfNone result
        (pass.new.view ≡ with_own (took net (numbers list.now)) pass.old.view) }
    ensures given { IfSome result (λ wire.
        pass.new.view ≡ with_own (losing net wire.0) pass.old.view) }
    ensures lost { IfSome result (λ wire.
        (1 ≤ times wire.0 (wires_of table.now.lists net)) × IsShared table.now.lists net wire.0) }
    ensures lone { IsLone pass.old.view
        → IfSome result (λ wire. 1 ≤ total (takes_on wire.0) pass.old.view) }
{
    let Some(found) = take_all(table, pass, net, list) else {
        return None;
    };
    let mut left = found;
    while left > 0 {
        left -= 1;
        table.give(pass, net, list[left]);
    }
    Some(list[found])
}

/// Claims nets until none is left, passes the gate with each, and takes the wires of its list in order. A net all of whose wires it takes is
/// kept whole. At the first wire that is taken already it gives back what it took for the net. It notes what became of each net. Where the pass is
/// the main one and no other is out, the nets come in order, and each is kept of whose list no wire is in that of an earlier kept one.
///
/// The lists are those of the table, the pass has claimed nothing, and `notes` is empty and has room for all nets. Takes no memory, and waits only where
/// the gate does.
pub fn keep_nets<G: Gate>(
    table: &ClaimTable,
    pass: &mut Pass,
    lists: &[Vec<WireNo>],
    worker: u32,
    gate: &G,
    notes: &mut Vec<Note>,
)
    requires of { IsPassOf table.now pass.old }
    requires lists { IsTableOf table.now (lists_of lists.now) }
    requires fresh { IsFresh pass.old.view }
    requires none { notes.old.items ≡ [] }
    requires room { length lists.now ≤ vec_capacity notes.old }
    ensures of { IsPassOf table.now pass.new }
    ensures view { pass.new.view ≡ with_own (λ p. own pass.new.view) pass.old.view }
    ensures ended { (own pass.new.view).ended ≡ true }
    ensures notes { AreNotes table.now.lists pass.new.view.parts notes.new.items }
    ensures lone { IsLone pass.old.view → AreInTurn table.now.lists notes.new.items }
{
    while let Some(net) = table.claim(pass) {
        gate.pass(worker, NetNo(net));
        let lost = keep_net(table, pass, net, &lists[net as usize]);
        notes.push_reserved(Note { net, lost });
    }
}
