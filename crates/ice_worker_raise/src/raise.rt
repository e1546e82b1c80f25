//! A worker's blocks in a raising.
ghost use Rattle.std.specs.Prelude.{◌≡◌, ◌+◌, ◌*◌, ◌<◌, ◌≤◌, ℕ, false, length};
ghost use Rattle.ice_words_histories.specs.Blocks.{blocks_of, block_of, claims_on, bumps_on, with_own, own};
ghost use Rattle.ice_words_histories.specs.Grips.{IsHandOf};
ghost use Rattle.ice_worker_raise.specs.Raised.{wires_in, raised_part, wiring, wirings, AreBelow, Falls, IsFresh};

use ice_base::WireNo;
use ice_words::Counts;
use ice_words_histories::{HistoryHand, HistoryWords};

// Raises a wire's history where its count is above 1.
fn raise_wire(words: &HistoryWords, hand: &mut HistoryHand, counts: &Counts, wire: WireNo)
    requires of { IsHandOf words.now hand.old }
    requires wires { length counts.now.opened ≡ length hand.old.view.histories }
    requires wire { wire.0 < length hand.old.view.histories }
    requires claimed { 1 ≤ claims_on (block_of wire.0) (own hand.old.view) }
    requires new { bumps_on wire.0 (own hand.old.view) ≡ 0 }
    ensures of { IsHandOf words.now hand.new }
    ensures view { hand.new.view ≡ with_own (wiring counts.now.closed wire.0) hand.old.view }
{
    let count = counts.of(wire);
    if count > 1 {
        words.bump(hand, wire, count - 1);
    }
}

// Raises the histories of a claimed block.
fn raise_block(words: &HistoryWords, hand: &mut HistoryHand, counts: &Counts, block: u32)
    requires of { IsHandOf words.now hand.old }
    requires wires { length counts.now.opened ≡ length hand.old.view.histories }
    requires block { block < blocks_of (length hand.old.view.histories) }
    requires claimed { 1 ≤ claims_on block (own hand.old.view) }
    requires below { AreBelow (block * 1024) (own hand.old.view).bumps }
    ensures of { IsHandOf words.now hand.new }
    ensures view { hand.new.view ≡ with_own
        (wirings counts.now.closed (block * 1024) (wires_in (length hand.old.view.histories) block))
        hand.old.view }
{
    let wires = words.wires();
    let first = block * 1024;
    let many = (wires - first).min(1024);
    for k in 0..many {
        raise_wire(words, hand, counts, WireNo(first + k));
    }
}

/// Claims blocks until none is left, and raises the history of each wire with a count above 1 by its count less 1. The counts are of as many wires
/// as the histories; the hand has claimed nothing, and was never answered None. Takes no memory, and doesn't wait.
pub fn raise_blocks(words: &HistoryWords, hand: &mut HistoryHand, counts: &Counts)
    requires of { IsHandOf words.now hand.old }
    requires wires { length counts.now.opened ≡ length hand.old.view.histories }
    requires fresh { IsFresh hand.old.view }
    ensures of { IsHandOf words.now hand.new }
    ensures view { hand.new.view ≡ with_own
        (λ p.
        raised_part counts.now.closed (length hand.old.view.histories) (own hand.new.view).blocks)
        hand.old.view }
    ensures falls { Falls (own hand.new.view).blocks }
{
    while let Some(block) = words.claim_block(hand) {
        raise_block(words, hand, counts, block);
    }
}
