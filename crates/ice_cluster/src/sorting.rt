//! The cells that stand in no run: those with a flip-flop, and the plain ones.
ghost use Rattle.std.specs.Prelude.{◌≡◌, ◌++◌, length, flat_map, replicate, false, option_to_list, IfOk, OnOk};
ghost use Rattle.ice_cells.specs.Clusters.{all_held, flop_if, plain_if, run_cells, held_list, flops_by, plains_by, loose_flops, loose_plains};

use ice_base::{NoMemory, to_u32};
use ice_cells::{Control, LogicCell, Run, control_at};
use std::alloc::Global;

// Notes the cells of a run.
fn hold(held: &mut Vec<bool>, cells: &[u32])
    ensures { held.new.items ≡ all_held held.old.items cells.now }
{
    for c in cells {
        if (*c as usize) < held.len() {
            held[*c as usize] = true;
        }
    }
}

// Notes the cells of all runs.
fn hold_runs(held: &mut Vec<bool>, runs: &[Run])
    ensures { held.new.items ≡ all_held held.old.items (flat_map run_cells runs.now) }
{
    for run in runs {
        hold(held, run.cells.as_slice());
    }
}

// So many cells that stand in no run.
fn none_held(alloc: Global, count: usize) -> Result<Vec<bool>, NoMemory>
    ensures { IfOk result (λ held. held.items ≡ replicate count false) }
{
    Ok(vec![in alloc; false; count]?)
}

// Which cells stand in runs.
#[tactic(auto, using(crate::proofs::Opening::held_all))]
fn held_cells(alloc: Global, count: usize, runs: &[Run]) -> Result<Vec<bool>, NoMemory>
    ensures { IfOk result (λ held. held.items ≡ held_list runs.now count) }
{
    let mut held = none_held(alloc, count)?;
    hold_runs(&mut held, runs);
    Ok(held)
}

// Puts a cell that stands in no run to the flip-flops or to the plain cells.
fn sort_cell(
    flops: &mut Vec<(u32, Control)>,
    plains: &mut Vec<u32>,
    is_held: bool,
    c: u32,
    control: Option<Control>,
) -> Result<(), NoMemory>
    ensures flops { OnOk result
        (flops.new.items ≡ flops.old.items ++ option_to_list (flop_if is_held c control)) }
    ensures plains { OnOk result
        (plains.new.items ≡ plains.old.items ++ option_to_list (plain_if is_held c control)) }
{
    if is_held {
        return Ok(());
    }
    match control {
        Some(control) => flops.push((c, control))?,
        None => plains.push(c)?,
    }
    Ok(())
}

// The cells that stand in no run: those with a flip-flop, and the others.
fn sort_cells(
    alloc: Global,
    cells: &[LogicCell],
    held: &[bool],
) -> Result<(Vec<(u32, Control)>, Vec<u32>), NoMemory>
    requires { length held.now ≡ length cells.now }
    ensures flops { IfOk result (λ r. r.0.items ≡ flops_by held.now cells.now) }
    ensures plains { IfOk result (λ r. r.1.items ≡ plains_by held.now cells.now) }
{
    let mut flops = Vec::new(alloc);
    let mut plains = Vec::new(alloc);
    for c in 0..cells.len() {
        let number = to_u32(c)?;
        sort_cell(
            &mut flops,
            &mut plains,
            held[c],
            number,
            control_at(cells, number),
        )?;
    }
    Ok((flops, plains))
}

// The cells that stand in no run: those with a flip-flop, and the plain ones.
pub(crate) fn loose_cells(
    alloc: Global,
    cells: &[LogicCell],
    runs: &[Run],
) -> Result<(Vec<(u32, Control)>, Vec<u32>), NoMemory>
    ensures flops { IfOk result (λ r. r.0.items ≡ loose_flops cells.now runs.now) }
    ensures plains { IfOk result (λ r. r.1.items ≡ loose_plains cells.now runs.now) }
{
    let held = held_cells(alloc, cells.len(), runs)?;
    sort_cells(alloc, cells, held.as_slice())
}
