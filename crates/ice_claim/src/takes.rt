//! The wires that are taken at the end.
ghost use Rattle.std.specs.Prelude.{◌≡◌, ◌+◌, ◌<◌, ◌≤◌, ◌↔◌, List, ℕ, length, drop, slice_index, IsTrue};
ghost use Rattle.std.specs.Mem.Slots.{slots_items, slots_len, IsFull};

use atomic_table::Closed;
use ice_base::WireNo;
use std::alloc::Global;
use std::marker::Model;

/// Which wires are taken at the end. Contracts see a number for each wire: 1 where it is taken, and else 0.
pub struct Takes {
    pub(crate) closed: Closed<u64, Global>,
}

impl Model for Takes {
    ghost Value = { List ℕ };

    ghost view = { λ t. drop 1 (slots_items t.closed.words) };

    ghost invariant = { λ t.
        (1 ≤ slots_len t.closed.words) × IsFull t.closed.words × (slots_len t.closed.slots ≡ 0) };
}

impl Drop for Takes {
    fn drop(self) {
        let Takes { closed } = self;
        closed.free();
    }
}

impl Takes {
    /// Whether a wire is taken, which is one of those of the table. Takes no memory.
    pub fn taken(&self, wire: WireNo) -> bool
        requires { wire.0 < length self.now }
        ensures { IsTrue result ↔ (slice_index self.now wire.0 ≡ 1) }
    {
        self.closed.word(wire.0 as usize + 1) == 1
    }
}
