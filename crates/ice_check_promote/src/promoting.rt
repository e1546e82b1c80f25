//! Clocks of many flip-flops are promoted.
ghost use Rattle.std.specs.Prelude.{◌≡◌, Bool, List, IfOk};
ghost use Rattle.ice_net.specs.Meaning.{shows};
ghost use Rattle.ice_check.specs.Sound.{IsSound};
ghost use Rattle.ice_check_promote.specs.Promotable.{CanBePromoted, IsPromotion};
ghost use Rattle.ice_check_promote.specs.Promoted.{promoted};

use crate::choosing::promoted_clocks;
use crate::filling::with_buffers;
use crate::laws::{promoted_are_sound, promoted_show_the_same};
use ice_base::{NoMemory, SignalNo};
use ice_check::{Sound, check_sound};
use std::alloc::Global;

// The netlist with promoted clocks is sound, and shows what the netlist shows.
fn laws_of_promoted(sound: &Sound, outer: &[SignalNo], free: u32)
    ensures sound { IsSound (promoted sound.now outer.now free) }
    ensures shows { (levels : List (List Bool))
        → shows (promoted sound.now outer.now free) levels ≡ shows sound.now levels }
{
    promoted_are_sound();
    promoted_show_the_same();
    sound.is_sound();
}

// The netlist with promoted clocks, or None where no clock is promoted.
fn promoted_copy(
    alloc: Global,
    sound: &Sound,
    outer: &[SignalNo],
    free: u32,
) -> Result<Option<Sound>, NoMemory>
    requires { CanBePromoted sound.now }
    ensures netlist { IfOk result (IsPromotion sound.now outer.now free) }
    ensures sound { IsSound (promoted sound.now outer.now free) }
    ensures shows { (levels : List (List Bool))
        → shows (promoted sound.now outer.now free) levels ≡ shows sound.now levels }
{
    laws_of_promoted(sound, outer, free);
    sound.is_sound();
    let netlist = sound.netlist();
    let clocks = promoted_clocks(alloc, netlist, free)?;
    if clocks.is_empty() {
        return Ok(None);
    }
    let made = with_buffers(alloc, netlist, outer, clocks)?;
    let made = check_sound(alloc, made)?;
    Ok(Some(made))
}

/// The netlist in which clocks of sixteen flip-flops or more take the global networks that are free, at most so many: the first such
/// clocks, by their numbers, that are no global network already and not constant. Behind each stands a global buffer, whose signal has
/// the clock's name with a blank and `gb` behind it, and the flip-flops' clock inputs read that signal. So do covers that pass the clock
/// on to one of the outer clocks: signals that what closes the netlist has as its clocks, as those of ports at the clocks of block RAMs.
/// Nothing else changes. The netlist is sound, has the same ports, and shows for every list of levels what it showed.
///
/// Outer clocks do not count among the sixteen: a clock that block RAMs alone have is not promoted.
///
/// No name of the netlist may end with a blank and `gb`, and it has fewer than 1,073,000,000 cells.
///
/// # Errors
/// Want of memory alone.
pub fn promote(
    alloc: Global,
    sound: Sound,
    outer: &[SignalNo],
    free: u32,
) -> Result<Sound, NoMemory>
    requires { CanBePromoted sound }
    ensures netlist { IfOk result (λ made. made ≡ promoted sound outer.now free) }
    ensures sound { IsSound (promoted sound outer.now free) }
    ensures ports { IfOk result (λ made. made.ports ≡ sound.ports) }
    ensures shows { IfOk result (λ made.
        (levels : List (List Bool)) → shows made levels ≡ shows sound levels) }
{
    match promoted_copy(alloc, &sound, outer, free)? {
        Some(made) => Ok(made),
        None => Ok(sound),
    }
}
