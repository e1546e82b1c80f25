//! The table, and passes on it.
ghost use Rattle.std.specs.Prelude.{◌≡◌, ◌≢◌, ◌+◌, ◌-◌, ◌<◌, ◌≤◌, [], ◌∷◌, ℕ, false, true, length, replicate, IfOk, IfSome, IfNone};
ghost use Rattle.ice_core.specs.Routes.{times, wires_of, lists_of};
ghost use Rattle.ice_claim.specs.Claims.{total, claims_on, claims, ends_of, takes_on, takes_pair, claiming, ending, taking, losing, giving, own, with_own, first_view, worker_view, with_worker, with_parts, spent_view};
ghost use Rattle.ice_claim.specs.Rule.{AreAmong, AreLists, IsShared, IsLone, Holds, IsAfter, Draws, Finds, Tries, IsClosing, told_net};
ghost use Rattle.ice_claim.specs.Grips.{Grip, Board, IsPassOf, grip_of, board_of, nets_of};

use crate::takes::Takes;
use crate::view::{ClaimLists, ClaimView};
use atomic_table::{Join, Play, Seat, Split, Table, TableRule};
use ice_base::{NoMemory, WireNo};
use ice_words_hands::MOST_SPLITS;
use std::alloc::Global;
use std::marker::Model;

/// The rule of the table: what holds of its words and of what all passes know, between any two steps.
pub struct Claimed;

impl TableRule<u64, ClaimView, ClaimLists> for Claimed {
    ghost holds = { λ key s. Holds key.wires (nets_of key) s };

    ghost first = { λ key. first_view (nets_of key) };
}

// A net was drawn.
struct Drawing;

impl Play<u64, ClaimView> for Drawing {
    ghost then = { λ s v n w. Draws v.0 n w.0 × (w.1 ≡ v.1) };
}

// A wire was tried for a net.
struct Taking;

impl Play<u64, ClaimView> for Taking {
    ghost then = { λ s v n w. Tries v.0 (told_net s.said) (s.word - 1) n w.0 × (w.1 ≡ v.1) };
}

// A wire was given back.
struct Giving;

impl Play<u64, ClaimView> for Giving {
    ghost then = { λ s v n w.
        (w.0 ≡ with_own (giving (told_net s.said) (s.word - 1)) v.0) × (w.1 ≡ v.1) };
}

// A wire's word was read.
struct Looking;

impl Play<u64, ClaimView> for Looking {
    ghost then = { λ s v n w. Finds v.0 (s.word - 1) n × (w ≡ v) };
}

// A pass is split off the main one, or joined to it.
struct Cut;

impl Split<ClaimView> for Cut {
    ghost left = { with_worker };

    ghost right = { worker_view };
}

impl Join<ClaimView> for Cut {
    ghost both = { with_parts };

    ghost spent = { spent_view };
}

/// A pass on the table, by which one thread makes its steps on it. Contracts see what it knows: the nets that it claimed, and the wires that
/// it took and lost for them.
#[derive(Drop)]
pub struct Pass {
    seat: Seat<u64, ClaimView>,
}

impl Model for Pass {
    ghost Value = { Grip };

    ghost view = { λ p. grip_of p.seat.table_id p.seat.me.0 };

    ghost invariant = { λ p. (p.seat.me.1 ≡ []) × (1 ≤ length p.seat.me.0.parts)
        × AreAmong p.seat.table_id.words p.seat.me.0 };
}

/// A table of nets and wires that threads share: word 0 gives the numbers of nets, and word w + 1 is 1 where wire w is taken, and else 0. Each
/// step is one atomic operation on one word. None of the calls but `start` takes memory, and none waits.
#[derive(Drop)]
pub struct ClaimTable {
    table: Table<u64, ClaimView, ClaimLists, Claimed, Global>,
    nets: u32,
}

impl Model for ClaimTable {
    ghost Value = { Board };

    ghost view = { λ t.
        board_of t.table.shared.table_id t.table.shared.key.wires (nets_of t.table.shared.key) };

    ghost invariant = { λ t. (t.table.shared.table_id.words ≡ t.table.shared.key.wires + 1)
        × (t.table.shared.table_id.slots ≡ 0) × (t.nets ≡ length (nets_of t.table.shared.key))
        × AreLists t.table.shared.key.wires (nets_of t.table.shared.key) };
}

// A copy of lists of wires.
fn copies_of(alloc: Global, lists: &[Vec<WireNo>]) -> Result<Vec<Vec<WireNo>>, NoMemory>
    ensures { IfOk result (λ copies. lists_of copies.items ≡ lists_of lists.now) }
{
    let mut copies = Vec::with_capacity(alloc, lists.len())?;
    for list in lists {
        copies.push(Vec::from_slice(alloc, list)?)?;
    }
    Ok(copies)
}

// The words at the start: no net drawn, and no wire taken.
fn words_of(alloc: Global, wires: u32) -> Result<Vec<u64>, NoMemory>
    ensures { IfOk result (λ words. words.items ≡ replicate (wires + 1) 0) }
{
    Ok(vec![in alloc; 0; wires as usize + 1]?)
}

impl ClaimTable {
    /// A table for these nets, at most 65,536, each with the list of its wires, which are below `wires` and none twice in a list; and the main
    /// pass, which alone splits, joins and closes. It answers `NoMemory` where it finds no memory for its words.
    pub fn start(
        alloc: Global,
        wires: u32,
        lists: &[Vec<WireNo>],
    ) -> Result<(ClaimTable, Pass), NoMemory>
        requires { AreLists wires (lists_of lists.now) }
        ensures board { IfOk result (λ r. (r.0.wires ≡ wires) × (r.0.lists ≡ lists_of lists.now)) }
        ensures of { IfOk result (λ r. IsPassOf r.0 r.1) }
        ensures view { IfOk result (λ r. r.1.view ≡ first_view (lists_of lists.now)) }
    {
        let words = words_of(alloc, wires)?;
        let of_nets = copies_of(alloc, lists)?;
        let key = ClaimLists { of_nets, wires };
        let (table, seat) = Table::of_words(alloc, &words, &key)?;
        let table = ClaimTable {
            table,
            nets: lists.len() as u32,
        };
        Ok((table, Pass { seat }))
    }

    /// Draws a number. It is a net that no other claim has or will have; None where it isn't below the number of nets, after which the pass claims
    /// no more. The pass was never answered None. The main pass draws in order where no other is out.
    pub fn claim(&self, pass: &mut Pass) -> Option<u32>
        requires of { IsPassOf self.now pass.old }
        requires going { (own pass.old.view).ended ≡ false }
        ensures of { IsPassOf self.now pass.new }
        ensures number { IfSome result (λ n.
            (n < length self.now.lists) × IsAfter n (own pass.old.view).nets
            × (pass.new.view ≡ with_own (claiming n) pass.old.view)) }
        ensures none { IfNone result (pass.new.view ≡ with_own ending pass.old.view) }
        ensures lone { IsLone pass.old.view → total ends_of pass.old.view ≡ 0
            → IfSome result (λ n. n ≡ total claims pass.old.view) }
    {
        let n = self.table.shared.fetch_add::<Drawing>(&mut pass.seat, 0, 1);
        if n >= u64::from(self.nets) {
            return None;
        }
        Some(n as u32)
    }

    /// Takes a wire for a net, by one exchange of its word from 0 to 1. False comes exactly where the word was not 0, and another net's list has the
    /// wire then. The pass claimed the net, whose list has the wire, and has not taken the wire for it. The main pass takes what it hasn't where no
    /// other is out.
    pub fn take(&self, pass: &mut Pass, net: u32, wire: WireNo) -> bool
        requires of { IsPassOf self.now pass.old }
        requires claimed { 1 ≤ total (claims_on net) pass.old.view }
        requires listed { 1 ≤ times wire.0 (wires_of self.now.lists net) }
        requires new { total (takes_pair net wire.0) pass.old.view ≡ 0 }
        ensures of { IsPassOf self.now pass.new }
        ensures taken { result ≡ true → pass.new.view ≡ with_own (taking net wire.0) pass.old.view }
        ensures lost { result ≡ false
            → (pass.new.view ≡ with_own (losing net wire.0) pass.old.view)
            × IsShared self.now.lists net wire.0 }
        ensures lone { IsLone pass.old.view → total (takes_on wire.0) pass.old.view ≡ 0
            → result ≡ true }
    {
        let told = u64::from(net);
        let word = wire.0 as usize + 1;
        let found = self
            .table
            .shared
            .compare_exchange_with::<Taking>(&mut pass.seat, word, 0, 1, &told);
        found == 0
    }

    /// Gives a wire back, which the pass itself took for the net.
    pub fn give(&self, pass: &mut Pass, net: u32, wire: WireNo)
        requires of { IsPassOf self.now pass.old }
        requires held { 1 ≤ takes_pair net wire.0 (own pass.old.view) }
        ensures of { IsPassOf self.now pass.new }
        ensures view { pass.new.view ≡ with_own (giving net wire.0) pass.old.view }
    {
        let told = u64::from(net);
        let word = wire.0 as usize + 1;
        self.table
            .shared
            .compare_exchange_with::<Giving>(&mut pass.seat, word, 1, 0, &told);
    }

    /// Whether a wire is taken at this moment. It is where the pass has it, and exactly there where the pass is the main one and no other is out.
    pub fn look(&self, pass: &mut Pass, wire: WireNo) -> bool
        requires of { IsPassOf self.now pass.old }
        requires wire { wire.0 < self.now.wires }
        ensures view { pass.new ≡ pass.old }
        ensures own { 1 ≤ total (takes_on wire.0) pass.old.view → result ≡ true }
        ensures lone { IsLone pass.old.view → result ≡ true
            → 1 ≤ total (takes_on wire.0) pass.old.view }
    {
        let found = self
            .table
            .shared
            .load::<Looking>(&mut pass.seat, wire.0 as usize + 1);
        found != 0
    }

    /// A pass for another thread. The main pass splits fewer than 65,536 times.
    pub fn split(&self, pass: &mut Pass) -> Pass
        requires of { IsPassOf self.now pass.old }
        requires main { pass.old.view.main ≡ 1 }
        requires few { pass.old.view.splits < MOST_SPLITS }
        ensures of { IsPassOf self.now pass.new × IsPassOf self.now result }
        ensures view { pass.new.view ≡ with_worker pass.old.view }
        ensures new { result.view ≡ worker_view pass.old.view }
    {
        Pass {
            seat: self.table.shared.split_seat::<Cut>(&mut pass.seat),
        }
    }

    /// Takes in what another pass did, as a part of its own.
    pub fn join(&self, pass: &mut Pass, other: Pass)
        requires of { IsPassOf self.now pass.old × IsPassOf self.now other }
        requires main { pass.old.view.main ≡ 1 }
        requires worker { other.view.worker ≡ 1 }
        ensures of { IsPassOf self.now pass.new }
        ensures view { pass.new.view ≡ with_parts pass.old.view other.view }
    {
        let Pass { seat } = other;
        self.table.shared.join_seat::<Cut>(&mut pass.seat, seat);
    }

    /// What is taken at the end, when every pass that was split off has been joined: each wire that some pass took and didn't give back.
    pub fn close(self, pass: Pass) -> Takes
        requires of { IsPassOf self pass }
        requires main { pass.view.main ≡ 1 }
        requires joined { pass.view.out ≡ 0 }
        ensures closing { IsClosing self.wires pass.view result }
    {
        let ClaimTable { table, nets: _ } = self;
        let Pass { seat } = pass;
        Takes {
            closed: table.close_with(seat),
        }
    }
}
