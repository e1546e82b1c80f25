//! Clearing what a search touched.
ghost use Rattle.std.specs.Prelude.{◌≡◌, ◌<◌, ◌≤◌, ℕ, [], Bool, List, Option, length, true, false, None, vec_capacity};
ghost use Rattle.std.specs.List.{All, Contains};
ghost use Rattle.ice_path.specs.Search.{IsOnlyAt, done, label};

// Takes label and mark from each of the wires, which are all that have one.
#[tactic(auto, using(crate::proofs::Clearing::wiped_all, crate::proofs::Clearing::unsettled_all))]
pub fn wipe(labels: &mut [Option<u64>], settled: &mut [bool], touched: &[u32])
    requires lengths { length settled.old ≡ length labels.old }
    requires within { All (λ w. w < length labels.old) touched.now }
    requires only { IsOnlyAt touched.now labels.old settled.old }
    ensures labels { (w : ℕ) → label labels.new w ≡ None }
    ensures settled { (w : ℕ) → done settled.new w ≡ false }
{
    for wire in touched {
        labels[*wire as usize] = None;
        settled[*wire as usize] = false;
    }
}
