//! The first carries of runs.
ghost use Rattle.std.specs.Prelude.{◌≡◌, ◌++◌, ◌∷◌, [], length, replicate, IfOk};
ghost use Rattle.ice_cells.specs.Chains.{no_head, is_behind, is_first, leads, heads, all_led, present_of};

use crate::chain::{lowest, next};
use ice_base::NoMemory;
use ice_cells::{CarryIn, Follow, Root};
use std::alloc::Global;

// Whether the carry follows the one with that root.
fn is_behind(marks: &[Follow], c: usize, root: Root) -> bool
    ensures { result ≡ is_behind marks.now c root }
{
    let Root::CarryOut(e) = root else {
        return false;
    };
    match next(marks, e as usize) {
        Some(d) => d == c,
        None => false,
    }
}

// Whether the carry follows no other.
fn is_first(marks: &[Follow], c: usize, into: CarryIn) -> bool
    ensures { result ≡ is_first marks.now c into }
{
    match into {
        CarryIn::Fixed(_) => true,
        CarryIn::Read(root) => !is_behind(marks, c, root),
    }
}

// The cell by which the run of a carry has its place, where the carry is its first.
fn leads(marks: &[Follow], c: u32, into: CarryIn) -> Option<usize>
    ensures { result ≡ leads marks.now (c, into) }
{
    if !is_first(marks, c as usize, into) {
        return None;
    }
    Some(lowest(marks, c as usize))
}

// No first carries for so many cells.
fn no_leaders(alloc: Global, count: usize) -> Result<Vec<Option<(u32, CarryIn)>>, NoMemory>
    ensures { IfOk result (λ leaders. leaders.items ≡ replicate count no_head) }
{
    Ok(vec![in alloc; None; count]?)
}

// Notes a first carry by the cell by which its run has its place.
fn note_leader(leaders: &mut Vec<Option<(u32, CarryIn)>>, marks: &[Follow], c: u32, into: CarryIn)
    ensures { leaders.new.items ≡ all_led marks.now leaders.old.items ((c, into) ∷ []) }
{
    if let Some(low) = leads(marks, c, into) {
        if low < leaders.len() {
            if leaders[low].is_none() {
                leaders[low] = Some((c, into));
            }
        }
    }
}

// Notes all first carries.
fn note_leaders(
    leaders: &mut Vec<Option<(u32, CarryIn)>>,
    marks: &[Follow],
    carries: &[(u32, CarryIn)],
)
    ensures { leaders.new.items ≡ all_led marks.now leaders.old.items carries.now }
{
    for (c, into) in carries {
        note_leader(leaders, marks, *c, *into);
    }
}

// Those that are there.
fn present_of(
    alloc: Global,
    leaders: &[Option<(u32, CarryIn)>],
) -> Result<Vec<(u32, CarryIn)>, NoMemory>
    ensures { IfOk result (λ heads. heads.items ≡ present_of leaders.now) }
{
    let mut heads = Vec::new(alloc);
    for leader in leaders {
        if let Some(head) = *leader {
            heads.push(head)?;
        }
    }
    Ok(heads)
}

/// The first carries of all runs, each with what comes into it, in the order of the lowest carries of the runs. Of the cells that
/// have a carry each is given with what comes into it. It fails for want of memory alone.
#[tactic(auto, using(crate::proofs::Chaining::heads_found))]
pub fn find_heads(
    alloc: Global,
    marks: &[Follow],
    carries: &[(u32, CarryIn)],
) -> Result<Vec<(u32, CarryIn)>, NoMemory>
    ensures { IfOk result (λ found. found.items ≡ heads marks.now carries.now) }
{
    let mut leaders = no_leaders(alloc, marks.len())?;
    note_leaders(&mut leaders, marks, carries);
    present_of(alloc, leaders.as_slice())
}
