//! Lists of wires.
ghost use Rattle.std.specs.Prelude.{◌≡◌, map};

use ice_base::WireNo;
use std::marker::Model;

/// Wires, in order. Contracts see it as the list of their numbers.
#[derive(Debug, Drop)]
pub struct Wires {
    items: Vec<WireNo>,
}

impl Model for Wires {
    ghost use Rattle.std.specs.Prelude.{List, ℕ, map};
    ghost use Rattle.ice_base.specs.declared.number.WireNo.{WireNo};

    ghost Value = { List ℕ };

    ghost view = { λ wires. map (λ (w : WireNo). w.0) wires.items.items };
}

impl Wires {
    /// These wires. Takes no memory.
    pub fn from_vec(items: Vec<WireNo>) -> Wires
        ensures { result ≡ map (λ w. w.0) items.items }
    {
        Wires { items }
    }

    /// The wires as a slice.
    pub fn as_slice(&self) -> &[WireNo]
        ensures { map (λ w. w.0) result.now ≡ self.now }
    {
        self.items.as_slice()
    }
}
