//! Runs are made step by step.
ghost use Rattle.std.specs.Prelude.{◌≡◌, ◌++◌, length, map, flat_map, IfOk, OnOk};
ghost use Rattle.ice_cells.specs.Chains.{runs_from, feed_cells, fed_from, numbers_by};
ghost use Rattle.ice_cells.specs.Moves.{moves, renamed_source};
ghost use Rattle.ice_carry.specs.WithRuns.{with_runs};
ghost use Rattle.ice_cells.specs.Runs.{numbered, renamed_pad, runs_made, cells_fed, fed_numbers, movers, moved_numbers, runs_of};

use crate::CarryFault;
use crate::moves::{find_moves, number_moves};
use crate::renames::{cells_after, rename_globals, rename_pads};
use ice_base::NoMemory;
use ice_carry_chains::{build_runs, find_follows, find_heads, numbers_by_cell, push_feeds};
use ice_cells::{CarryIn, Design, DesignPad, Follow, Items, LogicCell, Root, Run};
use std::alloc::Global;

// A design's runs, its cells with those that the runs have beside their carries, and the cell that passes each carry on.
#[derive(Drop)]
struct Carried {
    runs: Vec<Run>,
    cells: Vec<LogicCell>,
    fed: Vec<Option<u32>>,
}

// The cells that their flip-flops leave, and by its number for each cell the one that its flip-flop goes to.
#[derive(Drop)]
struct Moved {
    movers: Vec<u32>,
    numbers: Vec<Option<u32>>,
}

// What pads and global buffers read.
#[derive(Drop)]
struct Readers {
    pads: Vec<DesignPad>,
    globals: Vec<Option<Root>>,
}

// Appends the cells that runs have beside their carries; gives for each cell the one that passes its carry on.
fn feed_runs(
    alloc: Global,
    cells: &mut Vec<LogicCell>,
    marks: &[Follow],
    heads: &[(u32, CarryIn)],
) -> Result<Vec<Option<u32>>, NoMemory>
    ensures cells { OnOk result
        (cells.new.items ≡ cells.old.items ++ flat_map (feed_cells marks.now) heads.now) }
    ensures fed { IfOk result (λ fed.
        fed.items ≡ numbers_by (fed_from marks.now (length cells.old.items) heads.now)
        (length (cells.old.items ++ flat_map (feed_cells marks.now) heads.now))) }
{
    let pairs = push_feeds(alloc, cells, marks, heads)?;
    let fed = numbers_by_cell(alloc, pairs.as_slice(), cells.len())?;
    Ok(fed)
}

// The runs that begin with these carries, and the cells that they have.
fn runs_from(
    alloc: Global,
    cells: &[LogicCell],
    marks: &[Follow],
    heads: &[(u32, CarryIn)],
) -> Result<Carried, NoMemory>
    ensures runs { IfOk result (λ made.
        made.runs.items ≡ runs_from marks.now (length cells.now) heads.now) }
    ensures cells { IfOk result (λ made.
        made.cells.items ≡ cells.now ++ flat_map (feed_cells marks.now) heads.now) }
    ensures fed { IfOk result (λ made.
        made.fed.items ≡ numbers_by (fed_from marks.now (length cells.now) heads.now)
        (length (cells.now ++ flat_map (feed_cells marks.now) heads.now))) }
{
    let mut all = Vec::from_slice(alloc, cells)?;
    let fed = feed_runs(alloc, &mut all, marks, heads)?;
    let runs = build_runs(alloc, marks, heads, cells.len())?;
    Ok(Carried {
        runs,
        cells: all,
        fed,
    })
}

// The runs of a design, and the cells that it has with them.
fn carry(alloc: Global, design: &Design) -> Result<Carried, NoMemory>
    ensures runs { IfOk result (λ made. made.runs.items ≡ runs_made design.now) }
    ensures cells { IfOk result (λ made. made.cells.items ≡ cells_fed design.now) }
    ensures fed { IfOk result (λ made. made.fed.items ≡ fed_numbers design.now) }
{
    let marks = find_follows(alloc, design)?;
    let heads = find_heads(alloc, marks.as_slice(), design.carries.as_slice())?;
    let made = runs_from(alloc, design.cells(), marks.as_slice(), heads.as_slice())?;
    Ok(made)
}

// The flip-flops that leave the cells of runs.
fn move_flops(alloc: Global, cells: &[LogicCell], runs: &[Run]) -> Result<Moved, NoMemory>
    ensures movers { IfOk result (λ moved. moved.movers.items ≡ moves cells.now runs.now) }
    ensures numbers { IfOk result (λ moved. moved.numbers.items
        ≡ numbers_by (numbered (length cells.now) (moves cells.now runs.now)) (length cells.now)) }
{
    let movers = find_moves(alloc, cells, runs)?;
    let pairs = number_moves(alloc, cells.len(), movers.as_slice())?;
    let numbers = numbers_by_cell(alloc, pairs.as_slice(), cells.len())?;
    Ok(Moved { movers, numbers })
}

// What pads and global buffers read afterwards.
fn rename_readers(
    alloc: Global,
    moved: &[Option<u32>],
    fed: &[Option<u32>],
    design: &Design,
) -> Result<Readers, NoMemory>
    ensures pads { IfOk result (λ readers.
        readers.pads.items ≡ map (renamed_pad moved.now fed.now) design.now.pads) }
    ensures globals { IfOk result (λ readers.
        readers.globals.items ≡ map (renamed_source moved.now fed.now) design.now.globals) }
{
    let pads = rename_pads(alloc, moved, fed, design.pads())?;
    let globals = rename_globals(alloc, moved, fed, design.globals())?;
    Ok(Readers { pads, globals })
}

// The design whose runs are made.
fn rename(alloc: Global, design: &Design, made: Carried, moved: &Moved) -> Result<Design, NoMemory>
    ensures { IfOk result (λ after. after ≡ with_runs design.now made.runs.items made.cells.items
        made.fed.items moved.now.movers.items moved.now.numbers.items) }
{
    let numbers = moved.numbers.as_slice();
    let readers = rename_readers(alloc, numbers, made.fed.as_slice(), design)?;
    let cells = cells_after(
        alloc,
        numbers,
        made.fed.as_slice(),
        made.cells.as_slice(),
        moved.movers.as_slice(),
    )?;
    Ok(Design {
        cells: Items::from_vec(cells),
        runs: Items::from_vec(made.runs),
        pads: Items::from_vec(readers.pads),
        globals: Items::from_vec(readers.globals),
        carries: Items::from_vec(Vec::new(alloc)),
    })
}

/// The design with its runs; each cell keeps its number. It fails for want of memory alone, and the design that was given is dropped.
pub fn runs(alloc: Global, design: Design) -> Result<Design, CarryFault>
    ensures { IfOk result (λ d. d ≡ runs_of design) }
{
    let made = carry(alloc, &design)?;
    let moved = move_flops(alloc, made.cells.as_slice(), made.runs.as_slice())?;
    let after = rename(alloc, &design, made, &moved)?;
    Ok(after)
}
