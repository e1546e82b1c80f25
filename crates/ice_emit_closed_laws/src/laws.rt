//! The laws of written bits with block RAMs. The functions do nothing: their contracts are the laws.
ghost use Rattle.ice_emit_closed_laws.specs.ClosedPlans.{ClosedChipIsOffElsewhere, ClosedChipShowsTheSame};

use ice_chip::Chip;

/// Where the ports of a netlist's block RAMs stand at the pins of the chip's first block RAMs, and the bits hold and settle these as the netlist
/// says and have no others in use, the closed chip shows what a closed circuit shows: one that shows what the open chip shows at all
/// ports, for every list of levels.
pub fn closed_chips_show_the_same(chip: &Chip)
    ensures { ClosedChipShowsTheSame chip.now }
{
    chip.is_chip();
}

/// A pad that a chip does not drive, whatever the levels of pads, it does not drive when its block RAMs close it.
pub fn closed_chips_are_off_elsewhere()
    ensures { ClosedChipIsOffElsewhere }
{}
