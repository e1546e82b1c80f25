//! The opening of all nets.
ghost use Rattle.std.specs.Prelude.{◌≡◌, ◌<◌, ◌≤◌, length, set, IfOk, IfSome, IfNone};
ghost use Rattle.std.specs.List.{AllByRecursion};
ghost use Rattle.ice_negotiate_defs.specs.Fitting.{Fits};
ghost use Rattle.ice_negotiate_defs.specs.Rounds.{AreNets};
ghost use Rattle.ice_negotiate_defs.specs.declared.kept.Kept.TheVariants.{Lost};
ghost use Rattle.ice_claim_opening.specs.Marks.{AreMarked};
ghost use Rattle.ice_claim_opening.specs.Opened.{IsOpened};
ghost use Rattle.ice_claim_opening.specs.declared.notes.Note.{Note as Noted};

use crate::first::{first_lists, first_trees};
use crate::notes::Note;
use crate::workers::notes_by;
use ice_base::NoMemory;
use ice_core::{MOST_NETS, MOST_WIRES, Net};
use ice_desk::Gate;
use ice_graph::Graph;
use ice_negotiate_defs::Kept;
use std::alloc::Global;
use std::mem;
use std::thread::Threads;

// Puts another in the place n.
fn put(kept: &mut Vec<Kept>, n: usize, one: Kept)
    requires { n < length kept.old.items }
    ensures { kept.new.items ≡ set kept.old.items n one }
{
    drop(mem::replace(&mut kept[n], one));
}

// Puts the wire in the place of the net, where it lost one.
fn mark_one(kept: &mut Vec<Kept>, note: Note)
    requires { note.net < length kept.old.items }
    ensures lost { IfSome note.lost (λ wire.
        kept.new.items ≡ set kept.old.items note.net (Lost wire)) }
    ensures kept { IfNone note.lost (kept.new.items ≡ kept.old.items) }
{
    let Some(wire) = note.lost else {
        return;
    };
    put(kept, note.net as usize, Kept::Lost(wire));
}

// Puts the wire in the place of each net that lost one.
fn mark(kept: &mut Vec<Kept>, notes: &[Note])
    requires { AllByRecursion (λ (note : Noted). note.net < length kept.old.items) notes.now }
    ensures { AreMarked kept.old.items notes.now kept.new.items }
{
    for &note in notes {
        mark_one(kept, note);
    }
}

/// Which nets are kept as the rounds begin, by `workers` workers, from 1 to 8. First each net gets its tree at price 1 for every wire. Each worker
/// then claims nets, passes the gate with each, and takes the wires of its tree exclusively; a net that finds one taken is given back whole.
///
/// `Whole` has that tree, and no wire is in two such trees. `Lost` names a wire of the net's tree that another net's tree has too, so a net
/// that shares no wire and reaches its sinks is kept. `Cut` comes exactly where a sink has no target that can be reached, with the first target of
/// the first such sink. With one worker a net is kept exactly where no wire of its tree is in an earlier kept one; with more, which of the nets
/// that share a wire are kept depends on the schedule.
///
/// The graph has at most 1,048,576 wires, and there are at most 65,536 nets, whose roots and targets are wires of the graph. Each sink has a
/// target. It answers `NoMemory` where it finds no memory.
pub fn opening<G: Gate + Sync, R: Threads + Sync>(
    rt: &R,
    alloc: Global,
    graph: &Graph,
    nets: &[Net],
    workers: u32,
    gate: &G,
) -> Result<Vec<Kept>, NoMemory>
    requires workers { (1 ≤ workers) × (workers ≤ 8) }
    requires wires { graph.now.wires ≤ MOST_WIRES }
    requires few { length nets.now ≤ MOST_NETS }
    requires nets { AreNets graph.now nets.now }
    ensures opened { IfOk result (λ kept. IsOpened graph.now nets.now workers kept.items) }
    ensures fits { IfOk result (λ kept. Fits graph.now nets.now kept.items) }
{
    let mut kept = first_trees(alloc, graph, nets)?;
    let lists = first_lists(alloc, &kept)?;
    let notes = notes_by(rt, alloc, graph.wires(), &lists, workers, gate)?;
    mark(&mut kept, &notes);
    Ok(kept)
}
