//! Chains of carries, from the first carry of each run on.
ghost use Rattle.std.specs.Prelude.{◌≡◌, ◌++◌, length, IfOk, OnOk};
ghost use Rattle.ice_cells.specs.Chains.{next, chain, end, lowest};

use ice_base::{NoMemory, to_u32};
use ice_cells::Follow;

/// The carry that follows.
pub fn next(marks: &[Follow], c: usize) -> Option<usize>
    ensures { result ≡ next marks.now c }
{
    if c >= marks.len() {
        return None;
    }
    match marks[c] {
        Follow::Next(d) => Some(d),
        Follow::Nobody | Follow::Other => None,
    }
}

/// Appends the carries of the chain from this one on; gives the last.
#[tactic(auto, using(crate::proofs::Chaining::chain_on, crate::proofs::Chaining::chain_stops, crate::proofs::Chaining::end_on, crate::proofs::Chaining::end_stops))]
pub fn push_chain(cells: &mut Vec<u32>, marks: &[Follow], head: usize) -> Result<usize, NoMemory>
    ensures cells { OnOk result
        (cells.new.items ≡ cells.old.items ++ chain marks.now (length marks.now) head) }
    ensures last { IfOk result (λ last. last ≡ end marks.now (length marks.now) head) }
{
    let mut at = head;
    for step in 0..marks.len() {
        cells.push(to_u32(at)?)?;
        let Some(c) = next(marks, at) else {
            return Ok(at);
        };
        at = c;
    }
    Ok(at)
}

/// The lowest carry of the chain from this one on.
#[tactic(auto, using(crate::proofs::Chaining::chain_on))]
pub fn lowest(marks: &[Follow], head: usize) -> usize
    ensures { result ≡ lowest marks.now head }
{
    let mut low = head;
    let mut at = head;
    for step in 0..marks.len() {
        low = low.min(at);
        let Some(c) = next(marks, at) else {
            return low;
        };
        at = c;
    }
    low
}

/// The last carry of the chain from this one on.
#[tactic(auto, using(crate::proofs::Chaining::end_on, crate::proofs::Chaining::end_stops))]
pub fn end(marks: &[Follow], head: usize) -> usize
    ensures { result ≡ end marks.now (length marks.now) head }
{
    let mut at = head;
    for step in 0..marks.len() {
        let Some(c) = next(marks, at) else {
            return at;
        };
        at = c;
    }
    at
}
