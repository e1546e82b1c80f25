//! Takers: what stands for a text that it is given piece by piece.
ghost use Rattle.std.specs.Prelude.{ℕ, ◌≤◌, List, length, OnOk, OnErr, IsErr};
ghost use Rattle.ice_desk_pieces.specs.Taken.{TakesMore};

use ice_base::NoMemory;

/// What stands for a text that it is given piece by piece.
pub trait Taker {
    /// The texts for which it stands.
    ghost stands: { Self → List ℕ → Type 0 };

    /// It ran out of memory.
    ghost spent: { Self → Type 0 };

    /// Takes the next piece of its text, which has at most 4,096 bytes.
    ///
    /// # Errors
    /// Want of memory at this piece or at an earlier one.
    fn take(&mut self, piece: &[u8]) -> Result<(), NoMemory>
        requires { length piece.now ≤ 4096 }
        ensures taken { OnOk result (TakesMore (stands self.old) (stands self.new) piece.now) }
        ensures failed { OnErr result (spent self.new) }
        ensures still { spent self.old → IsErr result };
}
