//! Laws of what a text of pin constraints says. The functions do nothing: their contracts are the laws.
ghost use Rattle.std.specs.Prelude.{◌≡◌, ◌⊎◌, ◌↔◌, List, Ok, Err};
ghost use Rattle.ice_pcf.specs.declared.constraint.Constraint.{Constraint};
ghost use Rattle.ice_pcf.specs.declared.fault.PcfFault.{PcfFault};
ghost use Rattle.ice_pcf.specs.Grammar.{pin_text_says};
ghost use Rattle.ice_pcf.specs.FirstFault.{HasConstraints, HasFirstFault};

/// A text says constraints exactly where no line has a fault, and then those of its lines in order. It says a
/// fault exactly where that is the fault of the first line that has one, and the fault names that line. So a text
/// has constraints or a first fault, and never both.
pub fn says_constraints_or_first_fault(text: &[u8])
    ensures constraints { (cs : List Constraint)
        → (pin_text_says text.now ≡ Ok cs ↔ HasConstraints text.now cs) }
    ensures fault { (f : PcfFault) → (pin_text_says text.now ≡ Err f ↔ HasFirstFault text.now f) }
    ensures one { ((cs : List Constraint) × HasConstraints text.now cs)
        ⊎ ((f : PcfFault) × HasFirstFault text.now f) }
    ensures never_both { (cs : List Constraint) → (f : PcfFault) → HasConstraints text.now cs
        → HasFirstFault text.now f → ⊥ }
{}
