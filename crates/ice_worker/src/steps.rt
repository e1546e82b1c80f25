//! One task's steps on the words.
ghost use Rattle.std.specs.Prelude.{◌≡◌, ◌<◌, ◌≤◌, ℕ, false, length};
ghost use Rattle.ice_core.specs.Routes.{numbers, times, wires_of};
ghost use Rattle.ice_path.specs.Room.{AreWires};
ghost use Rattle.ice_words.specs.Views.{with_own, own, posted};
ghost use Rattle.ice_words.specs.Grips.{IsHandOf};
ghost use Rattle.ice_worker.specs.Work.{changing, released_as, held_as, finished_as, IsNew, IsReady};

use ice_base::WireNo;
use ice_words::{Hand, Words};

// Releases the old wires of the newest claim.
#[tactic(auto, using(crate::proofs::Stepping::release_none))]
fn release_all(words: &Words, hand: &mut Hand, task: u32, wires: &[WireNo])
    requires of { IsHandOf words.now hand.old }
    requires going { (own hand.old.view).ended ≡ false }
    requires wires { numbers wires.now ≡ wires_of hand.old.view.olds task }
    requires within { AreWires (length hand.old.view.counts) wires.now }
    requires new { IsNew task (own hand.old.view).claims }
    ensures of { IsHandOf words.now hand.new }
    ensures view { posted hand.new.view
        ≡ posted (with_own (changing (released_as (numbers wires.now))) hand.old.view) }
{
    for wire in wires {
        words.release(hand, task, *wire);
    }
}

// Holds the new wires of the newest claim.
#[tactic(auto, using(crate::proofs::Stepping::hold_none))]
fn hold_all(words: &Words, hand: &mut Hand, task: u32, wires: &[WireNo])
    requires of { IsHandOf words.now hand.old }
    requires going { (own hand.old.view).ended ≡ false }
    requires once { (w : ℕ) → times w (numbers wires.now) ≤ 1 }
    requires within { AreWires (length hand.old.view.counts) wires.now }
    requires ready { IsReady hand.old.view.olds task (own hand.old.view).claims }
    ensures of { IsHandOf words.now hand.new }
    ensures view { posted hand.new.view
        ≡ posted (with_own (changing (held_as (numbers wires.now))) hand.old.view) }
{
    for wire in wires {
        words.hold(hand, task, *wire);
    }
}

// Releases the old wires of the newest claim, and then holds the new ones.
pub fn replace(words: &Words, hand: &mut Hand, task: u32, old: &[WireNo], new: &[WireNo])
    requires of { IsHandOf words.now hand.old }
    requires going { (own hand.old.view).ended ≡ false }
    requires wires { numbers old.now ≡ wires_of hand.old.view.olds task }
    requires within { AreWires (length hand.old.view.counts) old.now }
    requires once { (w : ℕ) → times w (numbers new.now) ≤ 1 }
    requires within_new { AreWires (length hand.old.view.counts) new.now }
    requires fresh { IsNew task (own hand.old.view).claims }
    ensures of { IsHandOf words.now hand.new }
    ensures view { posted hand.new.view ≡ posted
        (with_own (changing (finished_as (numbers old.now) (numbers new.now))) hand.old.view) }
{
    release_all(words, hand, task, old);
    hold_all(words, hand, task, new);
}
