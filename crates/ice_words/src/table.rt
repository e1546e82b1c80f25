//! The words, and hands on them.
ghost use Rattle.std.specs.Prelude.{◌≡◌, ◌+◌, ◌-◌, ◌<◌, ◌≤◌, ◌^◌, [], ◌∷◌, ℕ, false, length, map, min, slice_index, vec_capacity, IfOk, IfSome, IfNone};
ghost use Rattle.std.specs.List.{AllByRecursion};
ghost use Rattle.ice_core.specs.Routes.{overuse, old_wires, IsOpening};
ghost use Rattle.ice_words.specs.Views.{total, one, task_by, released_on, held_on, releases_of, holds_of, ends, claiming, ending, with_own, released_at, held_at, posted_up, posted_down, posted, own, first_view, worker_view, with_worker, with_parts, spent_view};
ghost use Rattle.ice_words.specs.Rule.{IsNewestReleased, IsAfter, MayRelease, MayHold, Holds, Draws, AreFew, Looks, IsClosing, IsPosted};
ghost use Rattle.ice_words.specs.Grips.{Grip, Board, IsHandOf, grip_of, board_of, olds_of};

use crate::counts::{Counts, counts_in};
use crate::view::{Opening, View};
use atomic_table::{Join, Play, Seat, Split, Table, TableRule};
use ice_base::{NoMemory, WireNo};
use ice_core::{MOST_NETS, Task, old_routes};
use ice_words_hands::MOST_SPLITS;
use std::alloc::Global;
use std::marker::Model;

/// The rule of the words: what holds of them and of what all hands know, between any two steps.
pub struct Counted;

impl TableRule<u64, View, Opening> for Counted {
    ghost holds = { λ opening s. Holds (olds_of opening) opening.counts.items s };

    ghost first = { λ opening. first_view (olds_of opening) opening.counts.items };
}

// A number was drawn.
struct Drawing;

impl Play<u64, View> for Drawing {
    ghost then = { λ s v n w. Draws v.0 n w.0 × (w.1 ≡ v.1) };
}

// A wire was released.
struct Releasing;

impl Play<u64, View> for Releasing {
    ghost then = { λ s v n w. Looks v.0 (s.word - 3) n × (w.0 ≡ released_at n (s.word - 3) v.0)
        × AreFew w.0 × (w.1 ≡ v.1) };
}

// A wire was held.
struct Holding;

impl Play<u64, View> for Holding {
    ghost then = { λ s v n w.
        Looks v.0 (s.word - 3) n × (w.0 ≡ held_at n (s.word - 3) v.0) × AreFew w.0 × (w.1 ≡ v.1) };
}

// A count was read.
struct Looking;

impl Play<u64, View> for Looking {
    ghost then = { λ s v n w. Looks v.0 (s.word - 3) n × (n ≤ 131072) × (w ≡ v) };
}

// The numbers of two hands are added.
struct Adding;

impl Play<u64, View> for Adding {
    ghost then = { λ s v n w. AreFew v.0 × (w ≡ v) };
}

// The overuses that came are posted.
struct PostingUp;

impl Play<u64, View> for PostingUp {
    ghost then = { λ s v n w. (w.0 ≡ posted_up v.0) × (w.1 ≡ v.1) };
}

// The overuses that went are posted.
struct PostingDown;

impl Play<u64, View> for PostingDown {
    ghost then = { λ s v n w. (w.0 ≡ posted_down v.0) × (w.1 ≡ v.1) };
}

// A hand is split off the main one, or joined to it.
struct Cut;

impl Split<View> for Cut {
    ghost left = { with_worker };

    ghost right = { worker_view };
}

impl Join<View> for Cut {
    ghost both = { with_parts };

    ghost spent = { spent_view };
}

/// A hand on words, by which one thread makes its steps on them. Contracts see what it knows: the tasks that it claimed, and what it
/// released and held. It counts how many tasks, releases and holds these are, and the overuses that came and went by it and that it hasn't posted.
#[derive(Drop)]
pub struct Hand {
    pub(crate) seat: Seat<u64, View>,
    pub(crate) claims: u32,
    pub(crate) releases: u64,
    pub(crate) holds: u64,
    pub(crate) up: u64,
    pub(crate) down: u64,
}

impl Model for Hand {
    ghost Value = { Grip };

    ghost view = { λ h. grip_of h.seat.table_id h.seat.me.0 };

    ghost invariant = { λ h.
        (h.seat.me.1 ≡ []) × (1 ≤ length h.seat.me.0.parts) × (h.claims ≡ total one h.seat.me.0)
        × (h.releases ≡ total releases_of h.seat.me.0) × (h.holds ≡ total holds_of h.seat.me.0)
        × (h.up ≡ h.seat.me.0.up) × (h.down ≡ h.seat.me.0.down) };
}

/// The words that the workers of a round share. Word 0 is the number that is drawn next, words 1 and 2 are the overuses that came and that went, as
/// they were posted, and word w + 3 is the number of routes that hold wire w. Each step is one atomic operation on one word. None of the calls but
/// `start` takes memory, and none waits.
#[derive(Drop)]
pub struct Words {
    table: Table<u64, View, Opening, Counted, Global>,
    opened: Vec<u32>,
    closed: Vec<u32>,
    over_opened: u64,
    tasks: u32,
}

impl Model for Words {
    ghost Value = { Board };

    ghost view = { λ w. board_of w.table.shared.table_id (olds_of w.table.shared.key)
        w.table.shared.key.counts.items };

    ghost invariant = { λ w.
        (w.table.shared.table_id.words ≡ length w.table.shared.key.counts.items + 3)
        × (w.table.shared.table_id.slots ≡ 0) × (w.tasks ≡ length (olds_of w.table.shared.key))
        × (w.opened.items ≡ w.table.shared.key.counts.items)
        × (w.over_opened ≡ overuse w.opened.items) × (w.over_opened ≤ 2 ^ 48)
        × (w.closed.items ≡ []) × (length w.opened.items ≤ vec_capacity w.closed) };
}

// A copy of the old wires of each task, and of the counts.
fn opening_of(alloc: Global, tasks: &[Task], counts: &[u32]) -> Result<Opening, NoMemory>
    ensures olds { IfOk result (λ o. olds_of o ≡ old_wires tasks.now) }
    ensures counts { IfOk result (λ o. o.counts.items ≡ counts.now) }
{
    Ok(Opening {
        olds: old_routes(alloc, tasks)?,
        counts: Vec::from_slice(alloc, counts)?,
    })
}

// The words as a round begins: nothing drawn, nothing posted, and the counts.
fn words_of(alloc: Global, wires: u32, counts: &[u32]) -> Result<Vec<u64>, NoMemory>
    ensures { IfOk result (λ words. words.items ≡ 0 ∷ 0 ∷ 0 ∷ counts.now) }
{
    let mut words = Vec::with_capacity(alloc, wires as usize + 3)?;
    words.push(0)?;
    words.push(0)?;
    words.push(0)?;
    for count in counts {
        words.push(u64::from(*count))?;
    }
    Ok(words)
}

// How much the counts are above 1.
fn overuse_of(counts: &[u32]) -> u64
    requires { (length counts.now < 2 ^ 32)
        × ((w : ℕ) → w < length counts.now → slice_index counts.now w ≤ MOST_NETS) }
    ensures { (result ≡ overuse counts.now) × (result ≤ 2 ^ 48) }
{
    let mut overuse = 0;
    for count in counts {
        overuse += u64::from(count.saturating_sub(1));
    }
    overuse
}

impl Words {
    /// Words for these tasks and counts, and the main hand, which alone splits, joins and closes. There are at most 65,536 tasks. `counts` has one entry
    /// for each of the `wires`, at most 65,536 and at least the number of tasks that have the wire as an old one; no task has an old wire twice. It answers
    /// `NoMemory` where it finds no memory for its words.
    pub fn start(
        alloc: Global,
        wires: u32,
        tasks: &[Task],
        counts: &[u32],
    ) -> Result<(Words, Hand), NoMemory>
        requires wires { length counts.now ≡ wires }
        requires opening { IsOpening (old_wires tasks.now) counts.now }
        ensures board { IfOk result (λ r.
            (r.0.olds ≡ old_wires tasks.now) × (r.0.counts ≡ counts.now)) }
        ensures of { IfOk result (λ r. IsHandOf r.0 r.1) }
        ensures view { IfOk result (λ r. r.1.view ≡ first_view (old_wires tasks.now) counts.now) }
    {
        let words = words_of(alloc, wires, counts)?;
        let over_opened = overuse_of(counts);
        let opening = opening_of(alloc, tasks, counts)?;
        let closed = Vec::with_capacity(alloc, wires as usize)?;
        let (table, seat) = Table::of_words(alloc, &words, &opening)?;
        let Opening {
            olds: _,
            counts: opened,
        } = opening;
        let words = Words {
            table,
            opened,
            closed,
            over_opened,
            tasks: tasks.len() as u32,
        };
        let hand = Hand {
            seat,
            claims: 0,
            releases: 0,
            holds: 0,
            up: 0,
            down: 0,
        };
        Ok((words, hand))
    }

    /// The counts at the end, when every hand that was split off has been joined: for each wire the old count less all releases plus all holds. The hand's
    /// overuses are posted.
    pub fn close(self, hand: Hand) -> Counts
        requires of { IsHandOf self hand }
        requires main { hand.view.main ≡ 1 }
        requires joined { hand.view.out ≡ 0 }
        requires posted { (hand.view.up ≡ 0) × (hand.view.down ≡ 0) }
        ensures closing { IsClosing hand.view result.closed }
        ensures opened { result.opened ≡ hand.view.counts }
        ensures posted { IsPosted hand.view result.closed result.up result.down }
        ensures numbers { (result.claims ≡ total one hand.view)
            × (result.releases ≡ total releases_of hand.view)
            × (result.holds ≡ total holds_of hand.view) }
    {
        let Words {
            table,
            opened,
            closed,
            over_opened,
            tasks: _,
        } = self;
        let Hand {
            seat,
            claims,
            releases,
            holds,
            up: _,
            down: _,
        } = hand;
        let shut = table.close_with(seat);
        let up = shut.word(1);
        let down = shut.word(2);
        let closed = counts_in(&shut, opened.len(), closed);
        shut.free();
        Counts {
            closed,
            opened,
            over_opened,
            up,
            down,
            claims,
            releases,
            holds,
        }
    }

    /// Draws a number. It is a task that no other claim has or will have; None where it isn't below the number of tasks, after which the hand claims no
    /// more. The hand was never answered None, and has released all old wires of the last task that it claimed.
    pub fn claim(&self, hand: &mut Hand) -> Option<u32>
        requires of { IsHandOf self.now hand.old }
        requires going { (own hand.old.view).ended ≡ false }
        requires whole { IsNewestReleased hand.old.view.olds (own hand.old.view).claims }
        ensures of { IsHandOf self.now hand.new }
        ensures number { IfSome result (λ n.
            (n < length hand.old.view.olds) × IsAfter n (own hand.old.view).claims
            × (hand.new.view ≡ with_own (claiming n) hand.old.view)) }
        ensures none { IfNone result (hand.new.view ≡ with_own ending hand.old.view) }
    {
        let n = self.table.shared.fetch_add::<Drawing>(&mut hand.seat, 0, 1);
        if n >= u64::from(self.tasks) {
            return None;
        }
        hand.claims += 1;
        Some(n as u32)
    }

    /// Takes one from a wire's count. The task is the last that the hand claimed, and the wire is the first of its old wires that the hand hasn't released. An
    /// overuse went where the count was at least 2.
    pub fn release(&self, hand: &mut Hand, task: u32, wire: WireNo)
        requires of { IsHandOf self.now hand.old }
        requires going { (own hand.old.view).ended ≡ false }
        requires wire { wire.0 < length hand.old.view.counts }
        requires may { MayRelease hand.old.view.olds (own hand.old.view).claims task wire.0 }
        ensures of { IsHandOf self.now hand.new }
        ensures view { (n : ℕ) × Looks hand.old.view wire.0 n
            × (hand.new.view ≡ released_at n wire.0 hand.old.view) }
    {
        let _task = task;
        let found = self
            .table
            .shared
            .fetch_sub::<Releasing>(&mut hand.seat, wire.0 as usize + 3, 1);
        hand.releases += 1;
        if found >= 2 {
            hand.down += 1;
        }
    }

    /// Adds one to a wire's count. The task is the last that the hand claimed, all its old wires are released, and the hand hasn't held the wire for it. An
    /// overuse came where the count was at least 1.
    pub fn hold(&self, hand: &mut Hand, task: u32, wire: WireNo)
        requires of { IsHandOf self.now hand.old }
        requires going { (own hand.old.view).ended ≡ false }
        requires wire { wire.0 < length hand.old.view.counts }
        requires may { MayHold hand.old.view.olds (own hand.old.view).claims task wire.0 }
        ensures of { IsHandOf self.now hand.new }
        ensures view { (n : ℕ) × Looks hand.old.view wire.0 n
            × (hand.new.view ≡ held_at n wire.0 hand.old.view) }
    {
        let _task = task;
        let found = self
            .table
            .shared
            .fetch_add::<Holding>(&mut hand.seat, wire.0 as usize + 3, 1);
        hand.holds += 1;
        if found >= 1 {
            hand.up += 1;
        }
    }

    /// Posts the overuses that came and went by the hand since it last posted: one step for each of the two numbers.
    pub fn post(&self, hand: &mut Hand)
        requires of { IsHandOf self.now hand.old }
        ensures of { IsHandOf self.now hand.new }
        ensures view { hand.new.view ≡ posted hand.old.view }
    {
        self.table
            .shared
            .fetch_add::<PostingUp>(&mut hand.seat, 1, hand.up);
        hand.up = 0;
        self.table
            .shared
            .fetch_add::<PostingDown>(&mut hand.seat, 2, hand.down);
        hand.down = 0;
    }

    /// The count of a wire at this moment. It differs from what the hand's own releases and holds make of the old count by at most the tasks that the hand
    /// didn't claim: it is less by at most those of them that have the wire as an old one, and more by at most all of them. It doesn't differ where the
    /// hand is the main one and no other is out.
    pub fn look(&self, hand: &mut Hand, wire: WireNo) -> u32
        requires of { IsHandOf self.now hand.old }
        requires wire { wire.0 < length hand.old.view.counts }
        ensures view { hand.new ≡ hand.old }
        ensures looks { Looks hand.old.view wire.0 result }
    {
        self.table
            .shared
            .load::<Looking>(&mut hand.seat, wire.0 as usize + 3) as u32
    }

    /// A hand for another thread. The main hand splits fewer than 65,536 times.
    pub fn split(&self, hand: &mut Hand) -> Hand
        requires of { IsHandOf self.now hand.old }
        requires main { hand.old.view.main ≡ 1 }
        requires few { hand.old.view.splits < MOST_SPLITS }
        ensures of { IsHandOf self.now hand.new × IsHandOf self.now result }
        ensures view { hand.new.view ≡ with_worker hand.old.view }
        ensures new { result.view ≡ worker_view hand.old.view }
    {
        Hand {
            seat: self.table.shared.split_seat::<Cut>(&mut hand.seat),
            claims: 0,
            releases: 0,
            holds: 0,
            up: 0,
            down: 0,
        }
    }

    /// Takes in what another hand did, as a part of its own. The other's overuses are posted.
    pub fn join(&self, hand: &mut Hand, other: Hand)
        requires of { IsHandOf self.now hand.old × IsHandOf self.now other }
        requires main { hand.old.view.main ≡ 1 }
        requires worker { other.view.worker ≡ 1 }
        requires posted { (other.view.up ≡ 0) × (other.view.down ≡ 0) }
        ensures of { IsHandOf self.now hand.new }
        ensures view { hand.new.view ≡ with_parts hand.old.view other.view }
    {
        let Hand {
            seat,
            claims,
            releases,
            holds,
            up: _,
            down: _,
        } = other;
        self.table.shared.join_seat::<Cut>(&mut hand.seat, seat);
        self.table.shared.load::<Adding>(&mut hand.seat, 0);
        hand.claims += claims;
        hand.releases += releases;
        hand.holds += holds;
    }
}
