//! Tables by the number of a signal.
ghost use Rattle.std.specs.Prelude.{◌≡◌, ◌≢◌, ℕ, ◌+◌, ◌<◌, ◌≤◌, None, true, All, length, slice_index_or, IfOk};
ghost use Rattle.ice_net.specs.Formed.{IsBelow};
ghost use Rattle.ice_net.specs.Drivers.{is_signal};
ghost use Rattle.ice_check.specs.Tables.{ArePlaces, AreTimes, settled, once};

use ice_base::{NoMemory, SignalNo};
use std::alloc::Global;

// The first place of each signal in a list.
pub(crate) fn places(
    alloc: Global,
    count: usize,
    list: &[Option<SignalNo>],
) -> Result<Vec<Option<usize>>, NoMemory>
    requires { All (IsBelow count) list.now }
    ensures { IfOk result (λ table. ArePlaces count list.now table.items) }
{
    let mut table = blank(alloc, count)?;
    for (place, signal) in list.iter().enumerate() {
        settle(&mut table, *signal, place);
    }
    Ok(table)
}

// A table with no places.
fn blank(alloc: Global, count: usize) -> Result<Vec<Option<usize>>, NoMemory>
    ensures long { IfOk result (λ table. length table.items ≡ count) }
    ensures blank { IfOk result (λ table. (s : ℕ) → slice_index_or table.items s None ≡ None) }
{
    let mut table = Vec::new(alloc);
    table.resize(count, None)?;
    Ok(table)
}

// Takes down a place of a signal, unless it has one already.
#[tactic(auto, using(crate::proofs::TableSteps::settled_there, crate::proofs::TableSteps::settled_missing))]
fn settle(table: &mut Vec<Option<usize>>, signal: Option<SignalNo>, place: usize)
    requires { IsBelow (length table.old.items) signal }
    ensures length { length table.new.items ≡ length table.old.items }
    ensures settled { (s : ℕ) → slice_index_or table.new.items s None
        ≡ settled (is_signal s signal) (slice_index_or table.old.items s None) place }
{
    match signal {
        Some(signal) => claim(table, signal.0 as usize, place),
        None => {}
    }
}

fn claim(table: &mut Vec<Option<usize>>, index: usize, place: usize)
    requires { index < length table.old.items }
    ensures length { length table.new.items ≡ length table.old.items }
    ensures claimed { slice_index_or table.new.items index None
        ≡ settled true (slice_index_or table.old.items index None) place }
    ensures others { (s : ℕ) → s ≢ index → slice_index_or table.new.items s None
        ≡ slice_index_or table.old.items s None }
{
    if let None = table[index] {
        table[index] = Some(place);
    }
}

/// How often each of so many signals stands in a list, by the number of the signal.
///
/// # Errors
/// Want of memory alone.
#[tactic(auto, using(crate::proofs::TableSteps::times_none))]
pub fn times_of(
    alloc: Global,
    count: usize,
    list: &[Option<SignalNo>],
) -> Result<Vec<usize>, NoMemory>
    requires { All (IsBelow count) list.now }
    ensures { IfOk result (λ table. AreTimes count list.now table.items) }
{
    let mut table = vec![in alloc; 0; count]?;
    for (place, signal) in list.iter().enumerate() {
        tally(&mut table, *signal, place);
    }
    Ok(table)
}

// Counts a signal once more, where it stood at most so often.
#[tactic(auto, using(crate::proofs::TableSteps::tallied_there, crate::proofs::TableSteps::tallied_missing))]
fn tally(table: &mut Vec<usize>, signal: Option<SignalNo>, most: usize)
    requires below { IsBelow (length table.old.items) signal }
    requires room { (s : ℕ) → slice_index_or table.old.items s 0 ≤ most }
    requires most { most < 9223372036854775808 }
    ensures length { length table.new.items ≡ length table.old.items }
    ensures tallied { (s : ℕ) → slice_index_or table.new.items s 0
        ≡ slice_index_or table.old.items s 0 + once (is_signal s signal) }
{
    match signal {
        Some(signal) => add_one(table, signal.0 as usize),
        None => {}
    }
}

fn add_one(table: &mut Vec<usize>, index: usize)
    requires index { index < length table.old.items }
    requires room { slice_index_or table.old.items index 0 < 9223372036854775808 }
    ensures length { length table.new.items ≡ length table.old.items }
    ensures added { slice_index_or table.new.items index 0
        ≡ slice_index_or table.old.items index 0 + 1 }
    ensures others { (s : ℕ) → s ≢ index
        → slice_index_or table.new.items s 0 ≡ slice_index_or table.old.items s 0 }
{
    table[index] += 1;
}
