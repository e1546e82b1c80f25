//! The law of what a chip text says. The function does nothing: its contract is the law.
ghost use Rattle.std.specs.Prelude.{◌≡◌, ◌⊎◌, ◌↔◌, Ok, Err};
ghost use Rattle.ice_chip.specs.Database.{Parts};
ghost use Rattle.ice_chip.specs.declared.fault.ChipFault.{ChipFault};
ghost use Rattle.ice_chip_read.specs.Whole.{chip_says};
ghost use Rattle.ice_chip_read.specs.FirstFault.{HasChip, HasFirstFault};

/// A text says a chip exactly where its first line is that of a device, no line has a fault in what is read before it, and
/// the rows have no fault of the whole. It says a fault exactly where no line has words, or that is the fault of the first
/// line that has one, and names it, or no line has one and that is the first fault of the whole. So a text has a chip or a
/// first fault, and never both.
pub fn says_chip_or_first_fault(text: &[u8])
    ensures chip { (parts : Parts) → (chip_says text.now ≡ Ok parts ↔ HasChip text.now parts) }
    ensures fault { (f : ChipFault) → (chip_says text.now ≡ Err f ↔ HasFirstFault text.now f) }
    ensures one { ((parts : Parts) × HasChip text.now parts)
        ⊎ ((f : ChipFault) × HasFirstFault text.now f) }
    ensures never_both { (parts : Parts) → (f : ChipFault) → HasChip text.now parts
        → HasFirstFault text.now f → ⊥ }
{}
