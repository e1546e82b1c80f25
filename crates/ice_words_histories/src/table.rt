//! The words of the histories, and hands on them.
ghost use Rattle.std.specs.Prelude.{◌≡◌, ◌+◌, ◌-◌, ◌<◌, ◌≤◌, ◌^◌, [], ◌∷◌, ℕ, false, length, IfOk, IfSome, IfNone};
ghost use Rattle.ice_words_histories.specs.Blocks.{blocks_of, block_of, total, claims_on, bumps_on, raises_on, claiming, ending, bumping, with_own, own, first_view, worker_view, with_worker, with_parts, spent_view};
ghost use Rattle.ice_words_histories.specs.Rule.{AreHistories, Holds, IsAfter, Draws, Looks, IsClosing};
ghost use Rattle.ice_words_histories.specs.Grips.{Grip, Board, IsHandOf, grip_of, board_of};

use crate::histories::Histories;
use crate::view::{HistoryView, OldHistories};
use atomic_table::{Join, Play, Seat, Split, Table, TableRule};
use ice_base::{NoMemory, WireNo};
use ice_words_hands::MOST_SPLITS;
use std::alloc::Global;
use std::marker::Model;

/// The rule of the histories: what holds of the words and of what all hands know, between any two steps.
pub struct HistoryRule;

impl TableRule<u64, HistoryView, OldHistories> for HistoryRule {
    ghost holds = { λ key s. Holds key.of_wires.items s };

    ghost first = { λ key. first_view key.of_wires.items };
}

// A block was drawn.
struct Drawing;

impl Play<u64, HistoryView> for Drawing {
    ghost then = { λ s v n w. Draws v.0 n w.0 × (w.1 ≡ v.1) };
}

// A history was raised.
struct Bumping;

impl Play<u64, HistoryView> for Bumping {
    ghost then = { λ s v n w. (w.0 ≡ with_own (bumping (s.word - 1) s.first) v.0) × (w.1 ≡ v.1) };
}

// A history was read.
struct Looking;

impl Play<u64, HistoryView> for Looking {
    ghost then = { λ s v n w. Looks v.0 (s.word - 1) n × (w ≡ v) };
}

// A hand is split off the main one, or joined to it.
struct Cut;

impl Split<HistoryView> for Cut {
    ghost left = { with_worker };

    ghost right = { worker_view };
}

impl Join<HistoryView> for Cut {
    ghost both = { with_parts };

    ghost spent = { spent_view };
}

/// A hand on histories, by which one thread makes its steps on them. Contracts see what it knows: the blocks that it claimed and its bumps.
#[derive(Drop)]
pub struct HistoryHand {
    pub(crate) seat: Seat<u64, HistoryView>,
}

impl Model for HistoryHand {
    ghost Value = { Grip };

    ghost view = { λ h. grip_of h.seat.table_id h.seat.me.0 };

    ghost invariant = { λ h. (h.seat.me.1 ≡ []) × (1 ≤ length h.seat.me.0.parts) };
}

/// Histories that threads share: word 0 gives blocks of 1,024 wires, and word w + 1 is the history of wire w. Each step is one atomic operation on
/// one word. None of the calls but `start` takes memory, and none waits.
#[derive(Drop)]
pub struct HistoryWords {
    table: Table<u64, HistoryView, OldHistories, HistoryRule, Global>,
    wires: u32,
}

impl Model for HistoryWords {
    ghost Value = { Board };

    ghost view = { λ w. board_of w.table.shared.table_id w.table.shared.key.of_wires.items };

    ghost invariant = { λ w.
        (w.table.shared.table_id.words ≡ length w.table.shared.key.of_wires.items + 1)
        × (w.table.shared.table_id.slots ≡ 0)
        × (w.wires ≡ length w.table.shared.key.of_wires.items) };
}

// The words as a raising begins: no block drawn, and the histories.
fn words_of(alloc: Global, histories: &[u64]) -> Result<Vec<u64>, NoMemory>
    requires { length histories.now < 2 ^ 32 }
    ensures { IfOk result (λ v. v.items ≡ 0 ∷ histories.now) }
{
    let mut words = Vec::with_capacity(alloc, histories.len() + 1)?;
    words.push(0)?;
    for history in histories {
        words.push(*history)?;
    }
    Ok(words)
}

impl HistoryWords {
    /// Words for these histories, each below 2^32, of fewer than 2^32 wires; and the main hand, which alone splits, joins and closes. It answers
    /// `NoMemory` where it finds no memory for its words.
    pub fn start(alloc: Global, histories: &[u64]) -> Result<(HistoryWords, HistoryHand), NoMemory>
        requires { AreHistories histories.now }
        ensures board { IfOk result (λ r. r.0.histories ≡ histories.now) }
        ensures of { IfOk result (λ r. IsHandOf r.0 r.1) }
        ensures view { IfOk result (λ r. r.1.view ≡ first_view histories.now) }
    {
        let words = words_of(alloc, histories)?;
        let old = OldHistories {
            of_wires: Vec::from_slice(alloc, histories)?,
        };
        let (table, seat) = Table::of_words(alloc, &words, &old)?;
        let words = HistoryWords {
            table,
            wires: histories.len() as u32,
        };
        Ok((words, HistoryHand { seat }))
    }

    /// How many wires have a history.
    pub fn wires(&self) -> u32
        ensures { result ≡ length self.now.histories }
    {
        self.wires
    }

    /// Draws a number. It is a block that no other claim has or will have; None where it isn't below the number of blocks, after which the hand
    /// claims no more. The hand was never answered None.
    pub fn claim_block(&self, hand: &mut HistoryHand) -> Option<u32>
        requires of { IsHandOf self.now hand.old }
        requires going { (own hand.old.view).ended ≡ false }
        ensures of { IsHandOf self.now hand.new }
        ensures number { IfSome result (λ n.
            (n < blocks_of (length hand.old.view.histories)) × IsAfter n (own hand.old.view).blocks
            × (hand.new.view ≡ with_own (claiming n) hand.old.view)) }
        ensures none { IfNone result (hand.new.view ≡ with_own ending hand.old.view) }
    {
        let n = self.table.shared.fetch_add::<Drawing>(&mut hand.seat, 0, 1);
        if n >= (u64::from(self.wires) + 1023) / 1024 {
            return None;
        }
        Some(n as u32)
    }

    /// Raises the history of a wire. The hand claimed the wire's block, and hasn't bumped the wire before.
    pub fn bump(&self, hand: &mut HistoryHand, wire: WireNo, by: u32)
        requires of { IsHandOf self.now hand.old }
        requires wire { wire.0 < length hand.old.view.histories }
        requires claimed { 1 ≤ claims_on (block_of wire.0) (own hand.old.view) }
        requires new { bumps_on wire.0 (own hand.old.view) ≡ 0 }
        ensures of { IsHandOf self.now hand.new }
        ensures view { hand.new.view ≡ with_own (bumping wire.0 by) hand.old.view }
    {
        self.table
            .shared
            .fetch_add::<Bumping>(&mut hand.seat, wire.0 as usize + 1, u64::from(by));
    }

    /// The history of a wire at this moment: at least the old one and what the hand raised it by, and exactly that where the hand claimed the
    /// wire's block, or is the main one and no other is out.
    pub fn look(&self, hand: &mut HistoryHand, wire: WireNo) -> u64
        requires of { IsHandOf self.now hand.old }
        requires wire { wire.0 < length hand.old.view.histories }
        ensures view { hand.new ≡ hand.old }
        ensures looks { Looks hand.old.view wire.0 result }
    {
        self.table
            .shared
            .load::<Looking>(&mut hand.seat, wire.0 as usize + 1)
    }

    /// A hand for another thread. The main hand splits fewer than 65,536 times.
    pub fn split(&self, hand: &mut HistoryHand) -> HistoryHand
        requires of { IsHandOf self.now hand.old }
        requires main { hand.old.view.main ≡ 1 }
        requires few { hand.old.view.splits < MOST_SPLITS }
        ensures of { IsHandOf self.now hand.new × IsHandOf self.now result }
        ensures view { hand.new.view ≡ with_worker hand.old.view }
        ensures new { result.view ≡ worker_view hand.old.view }
    {
        HistoryHand {
            seat: self.table.shared.split_seat::<Cut>(&mut hand.seat),
        }
    }

    /// Takes in what another hand did, as a part of its own.
    pub fn join(&self, hand: &mut HistoryHand, other: HistoryHand)
        requires of { IsHandOf self.now hand.old × IsHandOf self.now other }
        requires main { hand.old.view.main ≡ 1 }
        requires worker { other.view.worker ≡ 1 }
        ensures of { IsHandOf self.now hand.new }
        ensures view { hand.new.view ≡ with_parts hand.old.view other.view }
    {
        let HistoryHand { seat } = other;
        self.table.shared.join_seat::<Cut>(&mut hand.seat, seat);
    }

    /// The histories at the end, when every hand that was split off has been joined: for each wire the old one and all that was bumped.
    pub fn close(self, hand: HistoryHand) -> Histories
        requires of { IsHandOf self hand }
        requires main { hand.view.main ≡ 1 }
        requires joined { hand.view.out ≡ 0 }
        ensures closing { IsClosing hand.view result }
    {
        let HistoryWords { table, wires: _ } = self;
        let HistoryHand { seat } = hand;
        Histories {
            closed: table.close_with(seat),
        }
    }
}
