//! The counts at the end of a round, and its tally.
ghost use Rattle.std.specs.Prelude.{◌≡◌, ◌+◌, ◌<◌, ◌≤◌, ◌^◌, [], ℕ, true, false, length, drop, slice_index, vec_capacity};
ghost use Rattle.ice_core.specs.Routes.{overuse};
ghost use Rattle.std.specs.Mem.Slots.{slots_items, slots_len, IsFull};
ghost use Rattle.ice_words.specs.Grips.{Shut, shut_of};

use atomic_table::Closed;
use ice_base::WireNo;
use ice_core::MOST_COUNT;
use std::alloc::Global;
use std::marker::Model;

/// The counts at the end of a round, beside those that it began with. Contracts see both lists, what was posted, and how many tasks, releases and holds
/// there were.
#[derive(Debug, Drop)]
pub struct Counts {
    pub(crate) closed: Vec<u32>,
    pub(crate) opened: Vec<u32>,
    pub(crate) over_opened: u64,
    pub(crate) up: u64,
    pub(crate) down: u64,
    pub(crate) claims: u32,
    pub(crate) releases: u64,
    pub(crate) holds: u64,
}

impl Model for Counts {
    ghost Value = { Shut };

    ghost view = { λ c.
        shut_of c.opened.items c.closed.items c.up c.down c.claims c.releases c.holds };

    ghost invariant = { λ c.
        (length c.closed.items ≡ length c.opened.items) × (c.over_opened ≤ 2 ^ 48) × (c.up ≤ 2 ^ 48)
        × (c.over_opened + c.up ≡ overuse c.closed.items + c.down) };
}

// The counts of so many wires in a table that no thread shares any more, in a list that has room for them.
pub fn counts_in(shut: &Closed<u64, Global>, wires: usize, mut room: Vec<u32>) -> Vec<u32>
    requires full { IsFull shut.now.words }
    requires wires { (slots_len shut.now.words ≡ wires + 3)
        × (length (drop 3 (slots_items shut.now.words)) ≡ wires) }
    requires low { (w : ℕ) → w < wires
        → slice_index (slots_items shut.now.words) (w + 3) ≤ MOST_COUNT }
    requires none { room.items ≡ [] }
    requires room { wires ≤ vec_capacity room }
    ensures { result.items ≡ drop 3 (slots_items shut.now.words) }
{
    for wire in 0..wires {
        room.push_reserved(shut.word(wire + 3) as u32);
    }
    room
}

impl Counts {
    /// The count of a wire, which is one of those of the round. Takes no memory.
    pub fn of(&self, wire: WireNo) -> u32
        requires { wire.0 < length self.now.opened }
        ensures { result ≡ slice_index self.now.closed wire.0 }
    {
        self.closed[wire.0 as usize]
    }

    /// The counts of all wires, by number. Takes no memory.
    pub fn all(&self) -> &[u32]
        ensures { result.now ≡ self.now.closed }
    {
        &self.closed
    }

    /// The overuses that came and that went, as they were posted. Takes no memory.
    pub fn posted(&self) -> (u64, u64)
        ensures { (result.0 ≡ self.now.up) × (result.1 ≡ self.now.down) }
    {
        (self.up, self.down)
    }

    /// How much the counts are above 1, over all wires. Takes no memory.
    pub fn over(&self) -> u64
        ensures { result ≡ overuse self.now.closed }
    {
        let (up, down) = self.posted();
        self.over_opened + up - down
    }

    /// Whether no wire is held twice. Takes no memory.
    pub fn is_free(&self) -> bool
        ensures free { result ≡ true → (w : ℕ) → slice_index self.now.closed w ≤ 1 }
        ensures overused { result ≡ false → (w : ℕ) × (1 < slice_index self.now.closed w) }
    {
        self.over() == 0
    }

    /// What is kept of the round. No other call makes a tally.
    pub fn tally(self) -> Tally
        ensures { result ≡ self }
    {
        Tally { counts: self }
    }
}

/// What is kept of a round: the counts that it began and ended with, and how many tasks, releases and holds there were.
#[derive(Debug, Drop)]
pub struct Tally {
    counts: Counts,
}

impl Model for Tally {
    ghost Value = { Shut };

    ghost view = { λ t. t.counts };
}

impl Tally {
    /// How many tasks were claimed.
    pub fn claims(&self) -> u32
        ensures { result ≡ self.now.claims }
    {
        self.counts.claims
    }

    /// How many wires were released.
    pub fn releases(&self) -> u64
        ensures { result ≡ self.now.releases }
    {
        self.counts.releases
    }

    /// How many wires were held.
    pub fn holds(&self) -> u64
        ensures { result ≡ self.now.holds }
    {
        self.counts.holds
    }

    /// The count of a wire as the round began.
    pub fn opened(&self, wire: WireNo) -> u32
        requires { wire.0 < length self.now.opened }
        ensures { result ≡ slice_index self.now.opened wire.0 }
    {
        self.counts.opened[wire.0 as usize]
    }

    /// The count of a wire as the round ended.
    pub fn closed(&self, wire: WireNo) -> u32
        requires { wire.0 < length self.now.opened }
        ensures { result ≡ slice_index self.now.closed wire.0 }
    {
        self.counts.of(wire)
    }
}
