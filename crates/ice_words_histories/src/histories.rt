//! Histories after a raising.
ghost use Rattle.std.specs.Prelude.{◌≡◌, ◌+◌, ◌<◌, ◌≤◌, List, ℕ, length, drop, slice_index};
ghost use Rattle.std.specs.Mem.Slots.{slots_items, slots_len, IsFull};

use atomic_table::Closed;
use ice_base::WireNo;
use std::alloc::Global;
use std::marker::Model;

/// The histories after a raising. Contracts see them as their list.
pub struct Histories {
    pub(crate) closed: Closed<u64, Global>,
}

impl Model for Histories {
    ghost Value = { List ℕ };

    ghost view = { λ h. drop 1 (slots_items h.closed.words) };

    ghost invariant = { λ h.
        (1 ≤ slots_len h.closed.words) × IsFull h.closed.words × (slots_len h.closed.slots ≡ 0) };
}

impl Drop for Histories {
    fn drop(self) {
        let Histories { closed } = self;
        closed.free();
    }
}

impl Histories {
    /// The history of a wire, which is one of those of the raising. Takes no memory.
    pub fn of(&self, wire: WireNo) -> u64
        requires { wire.0 < length self.now }
        ensures { result ≡ slice_index self.now wire.0 }
    {
        self.closed.word(wire.0 as usize + 1)
    }
}
