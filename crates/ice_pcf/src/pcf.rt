//! The constraints of a text.
ghost use Rattle.std.specs.Prelude.{◌≡◌};

use crate::Constraint;
use std::marker::Model;

/// The constraints of a text in the order of its lines. Contracts see it as the list of them.
#[derive(Drop)]
pub struct Pcf {
    constraints: Vec<Constraint>,
}

impl Model for Pcf {
    ghost use Rattle.std.specs.Prelude.{List};
    ghost use Rattle.ice_pcf.specs.declared.constraint.Constraint.{Constraint};

    ghost Value = { List Constraint };

    ghost view = { λ pcf. pcf.constraints.items };
}

impl Pcf {
    /// The constraints in the order of their lines.
    pub fn constraints(&self) -> &[Constraint]
        ensures { result.now ≡ self.now }
    {
        self.constraints.as_slice()
    }

    // These constraints. Takes no memory.
    pub(crate) fn of(constraints: Vec<Constraint>) -> Pcf
        ensures { result ≡ constraints.items }
    {
        Pcf { constraints }
    }
}
