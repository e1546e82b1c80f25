//! Runs, with the cells that take a signal into the first carry and pass the last one on.
ghost use Rattle.std.specs.Prelude.{◌≡◌, ◌+◌, ◌++◌, IfOk, slice_index_or};
ghost use Rattle.ice_cells.specs.Chains.{is_read, is_other, set_level, feeds, run_from, runs_from};

use crate::chain::push_chain;
use ice_base::{NoMemory, to_u32};
use ice_cells::{CarryIn, Follow, Items, Run};
use std::alloc::Global;

/// Whether the signal into a first carry comes through a cell.
pub fn is_read(into: CarryIn) -> bool
    ensures { result ≡ is_read into }
{
    match into {
        CarryIn::Fixed(_) => false,
        CarryIn::Read(_) => true,
    }
}

// The level into the first cell of a run.
fn set_level(into: CarryIn) -> bool
    ensures { result ≡ set_level into }
{
    match into {
        CarryIn::Fixed(level) => level,
        CarryIn::Read(_) => true,
    }
}

/// Whether a last carry is read in another way than by a carry that follows.
pub fn is_read_otherwise(marks: &[Follow], last: usize) -> bool
    ensures { result ≡ is_other (slice_index_or marks.now last Follow.Nobody) }
{
    if last >= marks.len() {
        return false;
    }
    match marks[last] {
        Follow::Other => true,
        Follow::Nobody | Follow::Next(_) => false,
    }
}

// The run of a first carry, where its other cells are numbered from this number on; and the first number behind them.
fn build_run(
    alloc: Global,
    marks: &[Follow],
    c: u32,
    into: CarryIn,
    first: u32,
) -> Result<(Run, usize), NoMemory>
    ensures run { IfOk result (λ r. r.0 ≡ run_from marks.now first (c, into)) }
    ensures behind { IfOk result (λ r. r.1 ≡ first + feeds marks.now (c, into)) }
{
    let mut cells = Vec::new(alloc);
    let mut number = first as usize;
    if is_read(into) {
        cells.push(first)?;
        number += 1;
    }
    let last = push_chain(&mut cells, marks, c as usize)?;
    if is_read_otherwise(marks, last) {
        cells.push(to_u32(number)?)?;
        number += 1;
    }
    let run = Run {
        cells: Items::from_vec(cells),
        set: set_level(into),
    };
    Ok((run, number))
}

/// The runs of first carries, each given with what comes into it. The cells that the runs have beside their carries are numbered
/// from `first` on. It fails for want of memory alone.
pub fn build_runs(
    alloc: Global,
    marks: &[Follow],
    heads: &[(u32, CarryIn)],
    first: usize,
) -> Result<Vec<Run>, NoMemory>
    ensures { IfOk result (λ runs. runs.items ≡ runs_from marks.now first heads.now) }
{
    let mut runs = Vec::new(alloc);
    let mut number = first;
    for (c, into) in heads {
        let (run, behind) = build_run(alloc, marks, *c, *into, to_u32(number)?)?;
        runs.push(run)?;
        number = behind;
    }
    Ok(runs)
}
