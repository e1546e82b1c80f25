//! Which logic cell each cell of a netlist goes to.
ghost use Rattle.std.specs.Prelude.{◌≡◌, ◌∷◌, ◌++◌, [], None, replicate, slice_index_or, IfOk, OnOk, if◌then◌else◌};
ghost use Rattle.std.specs.List.{enumerate_from};
ghost use Rattle.ice_cells.specs.Homes.{part, taker, is_table, is_kept, taken_anchor, anchor, least_of, first_by, opens, openers, counts, homes, home, carriers_of, no_carrier, all_shared};

use crate::Facts;
use ice_base::NoMemory;
use ice_cells::{Items, Part};
use std::alloc::Global;

/// Which logic cell each cell of a netlist goes to.
#[derive(Drop)]
pub struct Homes {
    /// For each cell, where it is a look-up table, the carry that shares its logic cell.
    pub carriers: Items<Option<usize>>,
    /// For each cell the number of the logic cell that it goes to; it means something where the cell goes to one.
    pub homes: Items<usize>,
    /// For each logic cell the first cell that goes there.
    pub openers: Items<usize>,
}

// What a cell is.
fn part_of(facts: &Facts, j: usize) -> Part
    ensures { result ≡ part facts.now j }
{
    let parts = facts.parts();
    if j < parts.len() {
        parts[j]
    } else {
        Part::Nothing
    }
}

// Whether it is a look-up table.
fn is_table(part: Part) -> bool
    ensures { result ≡ is_table part }
{
    matches!(part, Part::Table)
}

// The flip-flop that alone takes a look-up table.
fn taker(facts: &Facts, j: usize) -> Option<usize>
    ensures { result ≡ taker facts.now j }
{
    let takers = facts.takers();
    if is_table(part_of(facts, j)) && j < takers.len() {
        takers[j]
    } else {
        None
    }
}

// Whether it goes to a logic cell.
fn is_kept(part: Part) -> bool
    ensures { result ≡ is_kept part }
{
    !matches!(part, Part::Nothing)
}

// The cell by which a flip-flop goes that takes that output.
fn taken_anchor(facts: &Facts, j: usize, taken: Option<usize>) -> usize
    ensures { result ≡ taken_anchor facts.now j taken }
{
    let Some(k) = taken else {
        return j;
    };
    if !is_table(part_of(facts, k)) {
        return j;
    }
    match taker(facts, k) {
        Some(f) => if f == j { k } else { j },
        None => j,
    }
}

// The look-up table whose logic cell a carry shares.
fn lut_of(facts: &Facts, j: usize) -> Option<usize>
    ensures { result ≡ slice_index_or facts.now.luts j None }
{
    let luts = facts.luts();
    if j < luts.len() { luts[j] } else { None }
}

// The cell by which a cell goes: the look-up table that it shares, or itself.
fn anchor(facts: &Facts, j: usize) -> usize
    ensures { result ≡ anchor facts.now j }
{
    match part_of(facts, j) {
        Part::Table | Part::Nothing => j,
        Part::Flop(taken) => taken_anchor(facts, j, taken),
        Part::Carry => lut_of(facts, j).unwrap_or(j),
    }
}

// The lesser of a cell that may be there and another.
fn least_of(first: Option<usize>, second: usize) -> usize
    ensures { result ≡ least_of first second }
{
    match first {
        Some(j) => j.min(second),
        None => second,
    }
}

// The first of the cells that go where a cell goes.
fn first_member(facts: &Facts, carriers: &[Option<usize>], j: usize) -> usize
    ensures { result ≡ first_by facts.now carriers.now (anchor facts.now j) }
{
    let a = anchor(facts, j);
    let carrier = if a < carriers.len() {
        carriers[a]
    } else {
        None
    };
    least_of(taker(facts, a), least_of(carrier, a))
}

// No carriers for so many cells.
fn no_carriers(alloc: Global, count: usize) -> Result<Vec<Option<usize>>, NoMemory>
    ensures { IfOk result (λ carriers. carriers.items ≡ replicate count no_carrier) }
{
    Ok(vec![in alloc; None; count]?)
}

// Notes the look-up table of a carry, where no other carry has it.
fn note_carrier(carriers: &mut Vec<Option<usize>>, c: usize, lut: Option<usize>)
    ensures { carriers.new.items ≡ all_shared carriers.old.items ((c, lut) ∷ []) }
{
    if let Some(a) = lut {
        if a < carriers.len() {
            if carriers[a].is_none() {
                carriers[a] = Some(c);
            }
        }
    }
}

// Notes the look-up tables of carries.
fn note_carriers(carriers: &mut Vec<Option<usize>>, luts: &[Option<usize>])
    ensures { carriers.new.items ≡ all_shared carriers.old.items (enumerate_from 0 luts.now) }
{
    for (c, lut) in luts.iter().enumerate() {
        note_carrier(carriers, c, *lut);
    }
}

// The carry that shares each look-up table.
fn find_carriers(alloc: Global, facts: &Facts) -> Result<Vec<Option<usize>>, NoMemory>
    ensures { IfOk result (λ found. found.items ≡ carriers_of facts.now) }
{
    let mut found = no_carriers(alloc, facts.parts().len())?;
    note_carriers(&mut found, facts.luts());
    Ok(found)
}

// Whether a logic cell is opened at a cell.
fn opens(facts: &Facts, carriers: &[Option<usize>], j: usize) -> bool
    requires { carriers.now ≡ carriers_of facts.now }
    ensures { result ≡ opens facts.now j }
{
    is_kept(part_of(facts, j)) && first_member(facts, carriers, j) == j
}

// Opens a logic cell at a cell, where one is opened.
fn open(openers: &mut Vec<usize>, opens: bool, j: usize) -> Result<(), NoMemory>
    ensures { OnOk result
        (openers.new.items ≡ openers.old.items ++ (if opens then j ∷ [] else [])) }
{
    if opens {
        openers.push(j)?;
    }
    Ok(())
}

// The cells at which logic cells are opened, and how many before each.
fn find_openers(
    alloc: Global,
    facts: &Facts,
    carriers: &[Option<usize>],
) -> Result<(Vec<usize>, Vec<usize>), NoMemory>
    requires { carriers.now ≡ carriers_of facts.now }
    ensures openers { IfOk result (λ r. r.0.items ≡ openers facts.now) }
    ensures counts { IfOk result (λ r. r.1.items ≡ counts facts.now) }
{
    let mut found = Vec::new(alloc);
    let mut counted = Vec::new(alloc);
    for j in 0..facts.parts().len() {
        counted.push(found.len())?;
        open(&mut found, opens(facts, carriers, j), j)?;
    }
    Ok((found, counted))
}

// The home of a cell.
fn home(facts: &Facts, carriers: &[Option<usize>], counted: &[usize], j: usize) -> usize
    requires carriers { carriers.now ≡ carriers_of facts.now }
    requires counted { counted.now ≡ counts facts.now }
    ensures { result ≡ home facts.now j }
{
    let first = first_member(facts, carriers, j);
    if first < counted.len() {
        counted[first]
    } else {
        0
    }
}

// The number of the logic cell that each cell goes to.
fn numbers_of(
    alloc: Global,
    facts: &Facts,
    carriers: &[Option<usize>],
    counted: &[usize],
) -> Result<Vec<usize>, NoMemory>
    requires carriers { carriers.now ≡ carriers_of facts.now }
    requires counted { counted.now ≡ counts facts.now }
    ensures { IfOk result (λ found. found.items ≡ homes facts.now) }
{
    let mut found = Vec::new(alloc);
    for j in 0..facts.parts().len() {
        found.push(home(facts, carriers, counted, j))?;
    }
    Ok(found)
}

// The first cell of each logic cell, and the number of the logic cell that each cell goes to.
fn find_homes(
    alloc: Global,
    facts: &Facts,
    carriers: &[Option<usize>],
) -> Result<(Vec<usize>, Vec<usize>), NoMemory>
    requires { carriers.now ≡ carriers_of facts.now }
    ensures openers { IfOk result (λ r. r.0.items ≡ openers facts.now) }
    ensures homes { IfOk result (λ r. r.1.items ≡ homes facts.now) }
{
    let (openers, counted) = find_openers(alloc, facts, carriers)?;
    let homes = numbers_of(alloc, facts, carriers, &counted)?;
    Ok((openers, homes))
}

/// Which logic cell each cell goes to: logic cells are numbered by the first cells that go there.
///
/// # Errors
/// Want of memory alone.
pub fn homes_of(alloc: Global, facts: &Facts) -> Result<Homes, NoMemory>
    ensures carriers { IfOk result (λ found. found.carriers ≡ carriers_of facts.now) }
    ensures homes { IfOk result (λ found. found.homes ≡ homes facts.now) }
    ensures openers { IfOk result (λ found. found.openers ≡ openers facts.now) }
{
    let carriers = find_carriers(alloc, facts)?;
    let (openers, homes) = find_homes(alloc, facts, &carriers)?;
    Ok(Homes {
        carriers: Items::from_vec(carriers),
        homes: Items::from_vec(homes),
        openers: Items::from_vec(openers),
    })
}
