//! What is made of a configured chip: the chip is read of one text and its bits of another, its package is looked up, and the bits are
//! decoded.
ghost use Rattle.std.specs.Prelude.{◌≡◌, ◌∷◌, ℕ, Bool, List, Ok, IfOk, IfErr};
ghost use Rattle.ice_chip.specs.Database.{PackageRows};
ghost use Rattle.ice_chip.specs.Views.{package_view};
ghost use Rattle.ice_bits.specs.Grids.{IsOf};
ghost use Rattle.ice_decode.specs.Refusals.{IsCircuitOf};
ghost use Rattle.ice_place.specs.declared.arrangement.Arrangement.{Arrangement};
ghost use Rattle.ice_chip_read.specs.Whole.{chip_says};
ghost use Rattle.ice_chip_read_pieces.specs.Stands.{StandsFor};
ghost use Rattle.ice_flow_frame.specs.Told.{Told, told_in};
ghost use Rattle.ice_flow_frame.specs.declared.cause.Cause.{Cause};
ghost use Rattle.ice_flow_frame.specs.Commands.{IsRefusal};
ghost use Rattle.ice_flow_chip_frame.specs.ChipFiles.{StandsForSome};
ghost use Rattle.ice_flow_chip_frame.specs.Standing.{IsRead, IsConfigured, TextsStand};

use ice_asc::read_asc;
use ice_bits::Bits;
use ice_chip::{Chip, Package};
use ice_chip_read_pieces::ChipReader;
use ice_decode::Circuit;
use ice_decode_circuit::decode_taking;
use ice_flow_frame::{Cause, Made, Texts, asc_refusal, bits_refusal, chip_refusal};
use ice_pads::PinFault;
use std::alloc::Global;

/// What a command makes of a configured chip in a package, and of the texts behind that of the chip.
pub trait ChipMaking {
    /// Whether rows of switches may read what block RAMs in use read out.
    ghost rams: { Self → Bool };

    /// How it stands with texts, the chip's first, and with the package, by the answer that they have. The bits have no fault.
    ghost stands: { Self → List (List ℕ) → PackageRows → Cause → Type 0 };

    /// What is made of the name of a package and of texts, the chip's first: texts, with the arrangement that they are about and what is
    /// told of its routing.
    ghost gives: { Self → List ℕ → List (List ℕ) → List (List ℕ) → Arrangement → Told → Type 0 };

    /// Whether rows of switches may read what block RAMs in use read out. Where they may not, bits with such a row are refused.
    fn takes_rams(&self) -> bool
        ensures { result ≡ rams self.now };

    /// What is made of a circuit on a chip, and of the texts behind the chip's, the first of which says its bits; or why nothing is made.
    fn make(
        &self,
        alloc: Global,
        texts: &Texts,
        chip: &Chip,
        circuit: &Circuit,
        bonded: &Package,
    ) -> Result<Made, Cause>
        requires circuit { IsCircuitOf chip.now circuit.now.configuration circuit.now }
        requires bits { IsOf chip.now circuit.now.configuration }
        requires configured { (name : List ℕ) × (chip_text : List ℕ)
            × IsConfigured (rams self.now) name (chip_text ∷ texts.now) chip.now
            circuit.now.configuration (package_view bonded.now) }
        ensures given { (name : List ℕ) → (chip_text : List ℕ)
            → IsConfigured (rams self.now) name (chip_text ∷ texts.now) chip.now
            circuit.now.configuration (package_view bonded.now)
            → IfOk result (λ made. gives self.now name (chip_text ∷ texts.now) made.texts
            made.arrangement (told_in made)) }
        ensures refused { (name : List ℕ) → (chip_text : List ℕ)
            → IsConfigured (rams self.now) name (chip_text ∷ texts.now) chip.now
            circuit.now.configuration (package_view bonded.now)
            → IfErr result (λ cause.
            IsRefusal (stands self.now (chip_text ∷ texts.now) (package_view bonded.now)) cause) };
}

// What is made of bits on a chip, in the package of this name. The texts are those behind the chip's.
fn make_of_bits<M: ChipMaking>(
    alloc: Global,
    texts: &Texts,
    chip: &Chip,
    bits: &Bits,
    package_name: &str,
    making: &M,
) -> Result<Made, Cause>
    requires bits { IsOf chip.now bits.now }
    requires read { (chip_text : List ℕ) × IsRead (chip_text ∷ texts.now) chip.now bits.now }
    ensures given { (chip_text : List ℕ) → IsRead (chip_text ∷ texts.now) chip.now bits.now
        → IfOk result (λ made. M.gives making.now package_name.now (chip_text ∷ texts.now)
        made.texts made.arrangement (told_in made)) }
    ensures refused { (chip_text : List ℕ) → IsRead (chip_text ∷ texts.now) chip.now bits.now
        → IfErr result (λ cause. IsRefusal
        (TextsStand (M.rams making.now) (M.stands making.now (chip_text ∷ texts.now))
        package_name.now (chip_text ∷ texts.now))
        cause) }
{
    let Some(bonded) = chip.package(package_name.as_bytes()) else {
        return Err(Cause::BadPin(PinFault::NoPackage));
    };
    match decode_taking(alloc, chip, bits, making.takes_rams()) {
        Ok(circuit) => making.make(alloc, texts, chip, &circuit, bonded),
        Err(fault) => Err(bits_refusal(fault)),
    }
}

// What is made of the bits that the text behind the chip's says.
fn make_on_chip<M: ChipMaking>(
    alloc: Global,
    texts: &Texts,
    chip: &Chip,
    package_name: &str,
    making: &M,
) -> Result<Made, Cause>
    requires { (chip_text : List ℕ) × (chip_says chip_text ≡ Ok chip.now) }
    ensures given { (chip_text : List ℕ) → chip_says chip_text ≡ Ok chip.now
        → IfOk result (λ made. M.gives making.now package_name.now (chip_text ∷ texts.now)
        made.texts made.arrangement (told_in made)) }
    ensures refused { (chip_text : List ℕ) → chip_says chip_text ≡ Ok chip.now
        → IfErr result (λ cause. IsRefusal
        (TextsStand (M.rams making.now) (M.stands making.now (chip_text ∷ texts.now))
        package_name.now (chip_text ∷ texts.now))
        cause) }
{
    match read_asc(alloc, texts.at(1), chip) {
        Ok(bits) => make_of_bits(alloc, texts, chip, &bits, package_name, making),
        Err(fault) => Err(asc_refusal(fault)),
    }
}

/// What is made of a chip text, for which the reader stands, and of the texts behind it, the first of which says the bits; or why nothing
/// is made.
pub fn make_of_texts<M: ChipMaking>(
    alloc: Global,
    reader: ChipReader,
    texts: &Texts,
    package_name: &str,
    making: &M,
) -> Result<Made, Cause>
    requires { StandsForSome reader }
    ensures given { (chip_text : List ℕ) → StandsFor reader chip_text
        → IfOk result (λ made. M.gives making.now package_name.now (chip_text ∷ texts.now)
        made.texts made.arrangement (told_in made)) }
    ensures refused { (chip_text : List ℕ) → StandsFor reader chip_text
        → IfErr result (λ cause. IsRefusal
        (TextsStand (M.rams making.now) (M.stands making.now (chip_text ∷ texts.now))
        package_name.now (chip_text ∷ texts.now))
        cause) }
{
    match reader.finish() {
        Ok(chip) => {
            let made = make_on_chip(alloc, texts, &chip, package_name, making);
            drop(chip);
            made
        }
        Err(fault) => Err(chip_refusal(fault)),
    }
}
