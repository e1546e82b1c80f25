//! Laws of the bits of placed and routed designs. The functions do nothing: their contracts are the laws.
ghost use Rattle.std.specs.Prelude.{◌≡◌, ◌≤◌, ℕ, Bool, List, length};
ghost use Rattle.ice_chip.specs.Database.{PackageRows};
ghost use Rattle.ice_bits.specs.Configuration.{Bits};
ghost use Rattle.ice_decode.specs.Faults.{HasNoLoop};
ghost use Rattle.ice_decode.specs.declared.driver.Switch.{Switch};
ghost use Rattle.ice_ram.specs.Ram.{Kept};
ghost use Rattle.ice_ram.specs.declared.setup.Setup.{Setup};
ghost use Rattle.ice_emit_rows_laws.specs.Wanted.{IsWired};
ghost use Rattle.ice_place_defs.specs.Plan.{Plan};
ghost use Rattle.ice_emit_defs.specs.Arrivals.{Held};
ghost use Rattle.ice_emit_defs.specs.Led.{AreLed};
ghost use Rattle.ice_emit_defs.specs.Realised.{Realises};
ghost use Rattle.ice_emit_defs.specs.Routed.{IsPlaced};
ghost use Rattle.ice_emit_defs.specs.Set.{AreSet};
ghost use Rattle.ice_emit_defs.specs.Written.{plan_extras};
ghost use Rattle.ice_emit_meaning_laws.specs.Feeds.{AreFedByIo, FaultsAreRings, FeedsNoGlobal, IsRingless};
ghost use Rattle.ice_emit_meaning_laws.specs.WithoutRams.{IsPlainWithoutRams, ShowsWithoutRams};

use ice_chip::Chip;
use ice_chip_laws::chip_is_lawful;
use ice_cluster::laws::{
    cells_stand_in_one_slot, flops_are_driven_as_their_cluster, runs_stand_in_chunks,
};

/// The bits of a placed and routed design realise it, unless they have a loop: they have no fault, and for every list of levels of pads
/// the ports' pads, and pins of block RAMs, show step by step what the design shows, while every other pad is off. It is so where wanted
/// rows drive their wires and no others, lead the roots of the design to the pins that read them, and nothing else to a pin; and where
/// the bits of functions say what the slots, tiles, pads and block RAMs of the design are; the extra bits that are set are those of the
/// globals that direct global buffers have.
pub fn bits_realise_their_design(chip: &Chip)
    ensures { (package_rows : PackageRows) (plan : Plan) (pullups : List Bool)
        (rams : List (Setup × Kept)) (wanted : List Switch) (held : Held) (bits : Bits)
        (extras : List (ℕ × ℕ × ℕ))
        → extras ≡ plan_extras chip.now plan → HasNoLoop chip.now bits extras
        → (placed : IsPlaced chip.now package_rows plan pullups) → placed.rams ≤ length rams
        → AreLed chip.now plan wanted held → AreSet chip.now plan rams wanted held bits
        → IsWired chip.now bits wanted
        → Realises chip.now plan rams wanted bits extras }
{
    chip.is_chip();
    chip_is_lawful(chip);
    cells_stand_in_one_slot();
    flops_are_driven_as_their_cluster();
    runs_stand_in_chunks();
}

/// The bits of a placed and routed design have no loop where no globals of the chip feed each other in a ring.
pub fn bits_have_no_loop(chip: &Chip)
    ensures { (package_rows : PackageRows) (plan : Plan) (pullups : List Bool)
        (rams : List (Setup × Kept)) (wanted : List Switch) (held : Held) (bits : Bits)
        (extras : List (ℕ × ℕ × ℕ))
        → extras ≡ plan_extras chip.now plan → IsRingless chip.now
        → (placed : IsPlaced chip.now package_rows plan pullups) → placed.rams ≤ length rams
        → AreLed chip.now plan wanted held → AreSet chip.now plan rams wanted held bits
        → IsWired chip.now bits wanted
        → HasNoLoop chip.now bits extras }
{
    chip.is_chip();
    chip_is_lawful(chip);
    cells_stand_in_one_slot();
    flops_are_driven_as_their_cluster();
    runs_stand_in_chunks();
}

/// The bits of a placed and routed design have a fault only where globals of the chip feed each other in a ring.
pub fn faulty_bits_have_a_ring(chip: &Chip)
    ensures { (package_rows : PackageRows) (plan : Plan) (pullups : List Bool)
        (rams : List (Setup × Kept)) (wanted : List Switch) (held : Held) (bits : Bits)
        (extras : List (ℕ × ℕ × ℕ))
        → extras ≡ plan_extras chip.now plan
        → (placed : IsPlaced chip.now package_rows plan pullups) → placed.rams ≤ length rams
        → AreLed chip.now plan wanted held → AreSet chip.now plan rams wanted held bits
        → IsWired chip.now bits wanted → FaultsAreRings chip.now bits extras }
{
    chip.is_chip();
    chip_is_lawful(chip);
    cells_stand_in_one_slot();
    flops_are_driven_as_their_cluster();
    runs_stand_in_chunks();
}

/// Where no port of a placed design stands at a pin of a block RAM, its ports' pads show all that the design shows; and where the netlist has
/// no block RAM, no row that is on reads an output of a memory.
pub fn bits_without_rams(chip: &Chip)
    ensures shows { ShowsWithoutRams chip.now }
    ensures plain { IsPlainWithoutRams chip.now }
{
    chip.is_chip();
    chip_is_lawful(chip);
}

/// Where each global is fed by an IO tile, none is fed by a global: there what feeds it is an input pin.
pub fn io_tiles_feed_no_global(chip: &Chip)
    ensures { AreFedByIo chip.now → FeedsNoGlobal chip.now }
{
    chip_is_lawful(chip);
}
