//! Which pads have the wires that a port needs.
ghost use Rattle.std.specs.Prelude.{◌≡◌};
ghost use Rattle.ice_chip.specs.Names.{output_enable_name};
ghost use Rattle.ice_chip_sockets.specs.Sockets.{has_io_wire};
ghost use Rattle.ice_pads.specs.PadWires.{suits};

use crate::Want;
use ice_chip::{Chip, Pad, output_enable_name};
use ice_chip_sockets::{gives, has_io_wire, is_driven};

// Whether an IO tile has the enable of a pad.
fn has_enable(chip: &Chip, pad: Pad) -> bool
    ensures { result ≡ has_io_wire chip.now pad.tile (output_enable_name pad.pio) }
{
    has_io_wire(chip, pad.tile, &output_enable_name(pad.pio))
}

/// Whether the pad has the wires that a port needs.
pub fn suits(chip: &Chip, want: Want, pad: Pad) -> bool
    ensures { result ≡ suits chip.now want pad }
{
    (!want.input || gives(chip, pad))
        && (!want.output || is_driven(chip, pad))
        && (!want.enable || has_enable(chip, pad))
}
