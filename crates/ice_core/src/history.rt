//! The history of congestion.
ghost use Rattle.std.specs.Prelude.{◌≡◌, ◌+◌, ◌-◌, ◌<◌, ◌≤◌, ◌^◌, ℕ, length, slice_index};
ghost use Rattle.ice_core.specs.Congestion.{next_history};

use crate::limits::MOST_NETS;

/// Raises the history of each wire by the number of nets that hold it beyond one.
/// `counts` holds the number of nets on each wire. Each history is below 2^32, each count at most 65,536.
#[tactic(auto, using(crate::proofs::Raising::raised_none, crate::proofs::Raising::raised_more, crate::proofs::Raising::raised_all))]
pub fn raise(history: &mut [u64], counts: &[u32])
    requires lengths { length counts.now ≡ length history.old }
    requires history { (w : ℕ) → slice_index history.old w < 2 ^ 32 }
    requires counts { (w : ℕ) → slice_index counts.now w ≤ MOST_NETS }
    ensures next { history.new ≡ next_history history.old counts.now }
    ensures each { (w : ℕ) → w < length history.old
        → slice_index history.new w ≡ slice_index history.old w + (slice_index counts.now w - 1) }
{
    for w in 0..counts.len() {
        let rise = counts[w].saturating_sub(1) as u64;
        history[w] += rise;
    }
}
