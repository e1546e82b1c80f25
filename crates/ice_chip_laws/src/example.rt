//! A worked example: a small chip that keeps the laws.
ghost use Rattle.ice_chip.specs.IsRead.{IsChip};
ghost use Rattle.ice_chip_laws.specs.Laws.{IsLawful};
ghost use Rattle.ice_chip_laws.specs.Example.{example, FindsExample};

use crate::lookups_are_lawful;

/// A small chip, an IO tile beside a logic tile with two cells of a carry chain, is one without a fault. So its look-ups
/// keep the laws, and they find what its rows say. The function does nothing: its contract is the example.
pub fn worked_example()
    ensures chip { IsChip example }
    ensures lawful { IsLawful example }
    ensures found { FindsExample }
{
    lookups_are_lawful();
}
