//! Names of wires.
ghost use Rattle.std.specs.Prelude.{◌≡◌, IfOk};

use ice_base::NoMemory;
use smallvec::SmallVec;
use std::alloc::Global;
use std::marker::Model;

// How many bytes a name has at most that needs no memory of its own: as many as the longest one of the 1k device.
const INLINE: usize = 16;

/// A name of a wire, of which a database has many: a short one needs no memory of its own. Contracts see it as the list of its bytes.
#[derive(Drop)]
pub struct WireText {
    bytes: SmallVec<u8, INLINE>,
}

impl Model for WireText {
    ghost use Rattle.std.specs.Prelude.{List, ℕ};

    ghost Value = { List ℕ };

    ghost view = { λ text. text.bytes.items };
}

impl WireText {
    /// A copy of a word.
    ///
    /// # Errors
    /// Want of memory.
    pub fn new(alloc: Global, word: &[u8]) -> Result<WireText, NoMemory>
        ensures { IfOk result (λ text. text ≡ word.now) }
    {
        Ok(WireText {
            bytes: SmallVec::from_slice(alloc, word)?,
        })
    }

    /// The bytes of the name.
    pub fn as_bytes(&self) -> &[u8]
        ensures { result.now ≡ self.now }
    {
        self.bytes.as_slice()
    }
}
