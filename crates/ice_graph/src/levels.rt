//! Levels of sets of wires, 64 sets at a time.
ghost use Rattle.std.specs.Prelude.{◌≡◌, ◌+◌, ◌<◌, ◌≤◌, ℕ, [], Some, Option, List, length, true, false, IfOk, slice_get};
ghost use Rattle.std.specs.Int.{bit_at};
ghost use Rattle.ice_graph.specs.Network.{AreBetween};
ghost use Rattle.ice_graph.specs.Hops.{set_at};
ghost use Rattle.ice_graph.specs.Levels.{AreAll, AreLevels, Draws, IsColumnOf, IsFirstLevel, Reaches, lists_of};

use crate::edge::Edge;
use ice_base::NoMemory;
use std::alloc::Global;

// The bit of the wire's set, if that is one of the 64 from this one on.
fn home_of(set: Option<u8>, first: usize) -> u64
    ensures there { (b : ℕ) → b < 64 → set ≡ Some (first + b) → bit_at result b ≡ 1 }
    ensures back { (b : ℕ) → bit_at result b ≡ 1 → set ≡ Some (first + b) }
{
    let Some(number) = set else {
        return 0;
    };
    let number = number as usize;
    if number < first {
        return 0;
    }
    let bit = number - first;
    if bit >= 64 {
        return 0;
    }
    1 << bit
}

/// Of each wire the bit of its set, if that is one of the 64 from this one on. It answers `NoMemory` where it finds none.
pub fn homes_of(alloc: Global, sets: &[Option<u8>], first: usize) -> Result<Vec<u64>, NoMemory>
    ensures long { IfOk result (λ homes. length homes.items ≡ length sets.now) }
    ensures homes { IfOk result (λ homes.
        (w b : ℕ) → b < 64 → set_at sets.now w ≡ Some (first + b) → Reaches homes.items w b) }
    ensures back { IfOk result (λ homes.
        (w b : ℕ) → Reaches homes.items w b → set_at sets.now w ≡ Some (first + b)) }
{
    let mut homes = Vec::with_capacity(alloc, sets.len())?;
    for set in sets {
        homes.push(home_of(*set, first))?;
    }
    Ok(homes)
}

// Draws what the targets of the rows reach back to their sources.
fn draw(edges: &[Edge], level: &[u64], next: &mut [u64])
    requires between { AreBetween (length level.now) edges.now }
    requires copy { next.old ≡ level.now }
    ensures { Draws edges.now (length edges.now) level.now next.new }
{
    for edge in edges {
        next[edge.from.0 as usize] |= level[edge.to.0 as usize];
    }
}

// The level behind this one.
fn next_level(alloc: Global, edges: &[Edge], level: &[u64]) -> Result<Vec<u64>, NoMemory>
    requires { AreBetween (length level.now) edges.now }
    ensures { IfOk result (λ next. Draws edges.now (length edges.now) level.now next.items) }
{
    let mut next = Vec::from_slice(alloc, level)?;
    draw(edges, level, &mut next);
    Ok(next)
}

// Whether two levels are the same.
fn is_same(level: &[u64], other: &[u64]) -> bool
    ensures { result ≡ true → level.now ≡ other.now }
{
    level == other
}

/// The levels from the first one on, up to one behind which nothing more is reached; none where there are more than 255. It
/// answers `NoMemory` where it finds none.
pub fn levels_of(alloc: Global, edges: &[Edge], homes: Vec<u64>) -> Result<Vec<Vec<u64>>, NoMemory>
    requires { AreBetween (length homes.items) edges.now }
    ensures levels { IfOk result (λ levels.
        0 < length levels.items → AreLevels edges.now homes.items (lists_of levels.items)) }
    ensures all { IfOk result (λ levels. AreAll edges.now (lists_of levels.items)) }
{
    let mut levels = Vec::new(alloc);
    levels.push(homes)?;
    for place in 0..254 {
        let next = next_level(alloc, edges, &levels[place])?;
        if is_same(&levels[place], &next) {
            return Ok(levels);
        }
        levels.push(next)?;
    }
    Ok(Vec::new(alloc))
}

// Whether the wire reaches the set of the bit.
fn reaches(level: &[u64], wire: usize, bit: u32) -> bool
    requires wire { wire < length level.now }
    requires bit { bit < 64 }
    ensures yes { result ≡ true → Reaches level.now wire bit }
    ensures not { result ≡ false → Reaches level.now wire bit → ⊥ }
{
    (level[wire] >> bit) & 1 == 1
}

// The number of the first level of which the wire reaches the set of the bit.
fn first_level(levels: &[Vec<u64>], wire: usize, bit: u32) -> u8
    requires few { length levels.now ≤ 255 }
    requires wire { (k : ℕ) (level : List ℕ) → slice_get (lists_of levels.now) k ≡ Some level
        → wire < length level }
    requires bit { bit < 64 }
    ensures { IsFirstLevel (lists_of levels.now) wire bit result }
{
    for place in 0..levels.len() {
        if reaches(&levels[place], wire, bit) {
            return place as u8;
        }
    }
    255
}

/// The number of the first level of each wire. It answers `NoMemory` where it finds none.
pub fn column_of(
    alloc: Global,
    levels: &[Vec<u64>],
    wires: usize,
    bit: u32,
) -> Result<Vec<u8>, NoMemory>
    requires few { length levels.now ≤ 255 }
    requires long { (k : ℕ) (level : List ℕ) → slice_get (lists_of levels.now) k ≡ Some level
        → length level ≡ wires }
    requires bit { bit < 64 }
    ensures { IfOk result (λ column. IsColumnOf (lists_of levels.now) wires bit column.items) }
{
    let mut column = Vec::with_capacity(alloc, wires)?;
    for wire in 0..wires {
        column.push(first_level(levels, wire, bit))?;
    }
    Ok(column)
}
