//! The wires of globals.
ghost use Rattle.std.specs.Prelude.{◌≡◌, option_map};
ghost use Rattle.ice_pads.specs.Globals.{global_wire};
ghost use Rattle.ice_emit_nets.specs.Ends.{wire_no};

use ice_base::WireNo;
use ice_chip::Chip;
use ice_pads::global_wire;

// The least wire that has the name of a global.
#[tactic(auto, using(crate::proofs::Targets::wire_is))]
pub(crate) fn global_no(chip: &Chip, number: u8) -> Option<WireNo>
    ensures { result ≡ option_map wire_no (global_wire chip.now number) }
{
    global_wire(chip, number)
}
