//! The cells that take a signal into the first carry of a run and pass its last one on.
ghost use Rattle.std.specs.Prelude.{◌≡◌, ◌+◌, ◌++◌, length, flat_map, option_to_list, IfOk, OnOk};
ghost use Rattle.ice_cells.specs.Chains.{is_read, feed_in, feed_out, feed_cells, passes_out, end, fed_if, fed_from, one_if};

use crate::chain::end;
use crate::run::is_read_otherwise;
use ice_base::{NoMemory, to_u32};
use ice_cells::{CarryIn, Follow, LogicCell};
use std::alloc::Global;

// Appends the cell that takes a signal into a first carry, if there is one.
fn push_feed_in(cells: &mut Vec<LogicCell>, into: CarryIn) -> Result<(), NoMemory>
    ensures { OnOk result (cells.new.items ≡ cells.old.items ++ feed_in into) }
{
    if let CarryIn::Read(root) = into {
        cells.push(LogicCell {
            table: 0,
            ins: [None, Some(root), None, None],
            carry: true,
            carry_to_in3: false,
            flop: None,
        })?;
    }
    Ok(())
}

// Appends the cell that passes a last carry on, if there is one.
fn push_feed_out(cells: &mut Vec<LogicCell>, passes: bool) -> Result<(), NoMemory>
    ensures { OnOk result (cells.new.items ≡ cells.old.items ++ feed_out passes) }
{
    if passes {
        cells.push(LogicCell {
            table: 65280,
            ins: [None, None, None, None],
            carry: false,
            carry_to_in3: true,
            flop: None,
        })?;
    }
    Ok(())
}

// Appends the cells that a run has beside its carries; gives its last carry with the cell that passes it on, if there is one.
fn push_run_feeds(
    cells: &mut Vec<LogicCell>,
    marks: &[Follow],
    c: u32,
    into: CarryIn,
) -> Result<Option<(u32, u32)>, NoMemory>
    ensures cells { OnOk result
        (cells.new.items ≡ cells.old.items ++ feed_cells marks.now (c, into)) }
    ensures fed { IfOk result (λ fed. option_to_list fed ≡ fed_if (passes_out marks.now (c, into))
        (end marks.now (length marks.now) c, length cells.old.items + one_if (is_read into))) }
{
    push_feed_in(cells, into)?;
    let last = end(marks, c as usize);
    let number = to_u32(cells.len())?;
    let passes = is_read_otherwise(marks, last);
    push_feed_out(cells, passes)?;
    let last = to_u32(last)?;
    Ok(if passes { Some((last, number)) } else { None })
}

// Adds a last carry with the cell that passes it on, if there is one.
fn keep(all: &mut Vec<(u32, u32)>, fed: Option<(u32, u32)>) -> Result<(), NoMemory>
    ensures { OnOk result (all.new.items ≡ all.old.items ++ option_to_list fed) }
{
    if let Some(fed) = fed {
        all.push(fed)?;
    }
    Ok(())
}

/// Appends the cells that runs have beside their carries, by the first carries of the runs, each given with what comes into it. Gives
/// each carry that is passed on, with the number of the cell that does so. It fails for want of memory alone.
pub fn push_feeds(
    alloc: Global,
    cells: &mut Vec<LogicCell>,
    marks: &[Follow],
    heads: &[(u32, CarryIn)],
) -> Result<Vec<(u32, u32)>, NoMemory>
    ensures cells { OnOk result
        (cells.new.items ≡ cells.old.items ++ flat_map (feed_cells marks.now) heads.now) }
    ensures fed { IfOk result (λ fed.
        fed.items ≡ fed_from marks.now (length cells.old.items) heads.now) }
{
    let mut all = Vec::new(alloc);
    for (c, into) in heads {
        let fed = push_run_feeds(cells, marks, *c, *into)?;
        keep(&mut all, fed)?;
    }
    Ok(all)
}
