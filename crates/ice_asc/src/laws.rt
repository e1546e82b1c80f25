//! Laws of texts of bits. The functions do nothing: their contracts are the laws.
ghost use Rattle.std.specs.Prelude.{◌≡◌, ◌⊎◌, ◌↔◌, Ok, Err};
ghost use Rattle.ice_bits.specs.Configuration.{Configuration};
ghost use Rattle.ice_asc.specs.declared.fault.AscFault.{AscFault};
ghost use Rattle.ice_asc.specs.Grammar.{asc_in};
ghost use Rattle.ice_asc.specs.FirstFault.{HasBits, HasFirstFault};
ghost use Rattle.ice_asc.specs.RoundTrip.{WrittenIsRead};

use ice_chip::Chip;

/// The text that is written for bits of a chip says exactly these bits, where the numbers of the extra bits are below
/// 4,294,967,296, as those of `Bits` are.
pub fn written_is_read()
    ensures { WrittenIsRead }
{}

/// A text says bits of a chip exactly where neither a line nor its end has a fault, and then those that its lines say one after
/// another. It says a fault exactly where that is the fault of the first line that has one, or of the end where no line has one. So a
/// text has bits or a first fault, and never both.
pub fn says_bits_or_first_fault(chip: &Chip, text: &[u8])
    ensures bits { (k : Configuration)
        → (asc_in chip.now text.now ≡ Ok k ↔ HasBits chip.now text.now k) }
    ensures fault { (f : AscFault)
        → (asc_in chip.now text.now ≡ Err f ↔ HasFirstFault chip.now text.now f) }
    ensures one { ((k : Configuration) × HasBits chip.now text.now k)
        ⊎ ((f : AscFault) × HasFirstFault chip.now text.now f) }
    ensures never_both { (k : Configuration) → (f : AscFault) → HasBits chip.now text.now k
        → HasFirstFault chip.now text.now f → ⊥ }
{}
