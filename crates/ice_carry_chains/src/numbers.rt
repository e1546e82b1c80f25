//! Numbers by cells.
ghost use Rattle.std.specs.Prelude.{◌≡◌, ◌∷◌, [], replicate, IfOk};
ghost use Rattle.ice_cells.specs.Chains.{all_noted, no_number, numbers_by};

use ice_base::NoMemory;
use std::alloc::Global;

// No numbers for so many cells.
fn none_noted(alloc: Global, count: usize) -> Result<Vec<Option<u32>>, NoMemory>
    ensures { IfOk result (λ numbers. numbers.items ≡ replicate count no_number) }
{
    Ok(vec![in alloc; None; count]?)
}

// Notes the number of a cell, where it has none yet.
fn note(numbers: &mut Vec<Option<u32>>, c: u32, number: u32)
    ensures { numbers.new.items ≡ all_noted numbers.old.items ((c, number) ∷ []) }
{
    let c = c as usize;
    if c < numbers.len() {
        if numbers[c].is_none() {
            numbers[c] = Some(number);
        }
    }
}

// Notes the numbers of cells.
fn note_all(numbers: &mut Vec<Option<u32>>, pairs: &[(u32, u32)])
    ensures { numbers.new.items ≡ all_noted numbers.old.items pairs.now }
{
    for (c, number) in pairs {
        note(numbers, *c, *number);
    }
}

/// The number of each of so many cells, by a list of cells and numbers; the first of a cell counts. It fails for want of memory
/// alone.
#[tactic(auto, using(crate::proofs::Chaining::numbers_found))]
pub fn numbers_by_cell(
    alloc: Global,
    pairs: &[(u32, u32)],
    count: usize,
) -> Result<Vec<Option<u32>>, NoMemory>
    ensures { IfOk result (λ numbers. numbers.items ≡ numbers_by pairs.now count) }
{
    let mut numbers = none_noted(alloc, count)?;
    note_all(&mut numbers, pairs);
    Ok(numbers)
}
