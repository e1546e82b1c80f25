//! Clocks of a netlist are promoted, as many as globals of a chip are free.
ghost use Rattle.std.specs.Prelude.{◌≡◌, Bool, List, IfOk};
ghost use Rattle.ice_net.specs.Meaning.{shows};
ghost use Rattle.ice_check_promote.specs.Promotable.{CanBePromoted};
ghost use Rattle.ice_flow_globals.specs.Clocks.{promoted_on};

use ice_base::{NoMemory, SignalNo};
use ice_check::Sound;
use ice_check_promote::{free_beside, promote};
use ice_chip::Chip;
use ice_pads::globals;
use std::alloc::Global;

/// The netlist in which clocks of sixteen flip-flops or more take the globals of a chip that the netlist's own global buffers leave
/// free, also where they are passed on to one of the outer clocks, as those of block RAMs. It has the same ports, and shows for every list
/// of levels what the netlist shows.
///
/// No name of the netlist may end with a blank and `gb`, and it has fewer than 1,073,000,000 cells.
///
/// # Errors
/// Want of memory alone.
pub fn promote_clocks(
    alloc: Global,
    chip: &Chip,
    sound: Sound,
    outer: &[SignalNo],
) -> Result<Sound, NoMemory>
    requires { CanBePromoted sound }
    ensures netlist { IfOk result (λ made. made ≡ promoted_on chip.now sound outer.now) }
    ensures ports { IfOk result (λ made. made.ports ≡ sound.ports) }
    ensures shows { IfOk result (λ made.
        (levels : List (List Bool)) → shows made levels ≡ shows sound levels) }
{
    let free = free_beside(globals(chip), sound.netlist());
    promote(alloc, sound, outer, free)
}
