//! A netlist is prepared for placing and routing.
ghost use Rattle.std.specs.Prelude.{◌≡◌, Bool, List, IfOk};
ghost use Rattle.ice_net.specs.Meaning.{shows};
ghost use Rattle.ice_check_promote.specs.Promotable.{CanBePromoted};
ghost use Rattle.ice_flow_prepare.specs.Prepared.{CanBePrepared, prepared_on};

use ice_base::{NoMemory, SignalNo};
use ice_carry_tails::add_tails;
use ice_check::Sound;
use ice_check_promote::laws::netlists_with_such_names_can_be_promoted;
use ice_chip::Chip;
use ice_flow_globals::promote_clocks;
use std::alloc::Global;

// Its clocks can be promoted.
fn can_be_promoted(sound: &Sound)
    requires { CanBePrepared sound.now }
    ensures { CanBePromoted sound.now }
{
    netlists_with_such_names_can_be_promoted();
}

/// The netlist with its clocks on the globals of the chip that are free, also for these outer clocks, and with the ends of its carry chains in
/// their runs. It has the same ports, and shows for every list of levels what the netlist shows.
///
/// Each name of the netlist is a word or ends otherwise than in `b` and `l`, and it has fewer than 1,072,000,000 cells.
///
/// # Errors
/// Want of memory alone.
pub fn prepare(
    alloc: Global,
    chip: &Chip,
    sound: Sound,
    outer: &[SignalNo],
) -> Result<Sound, NoMemory>
    requires { CanBePrepared sound }
    ensures netlist { IfOk result (λ made. made ≡ prepared_on chip.now sound outer.now) }
    ensures ports { IfOk result (λ made. made.ports ≡ sound.ports) }
    ensures shows { IfOk result (λ made.
        (levels : List (List Bool)) → shows made levels ≡ shows sound levels) }
{
    can_be_promoted(&sound);
    sound.is_sound();
    let promoted = promote_clocks(alloc, chip, sound, outer)?;
    let made = add_tails(alloc, promoted)?;
    Ok(made)
}
