//! The ends of carry chains are kept in their runs.
ghost use Rattle.std.specs.Prelude.{◌≡◌, Bool, List, IfOk};
ghost use Rattle.ice_net.specs.Meaning.{shows};
ghost use Rattle.ice_check.specs.Sound.{IsSound};
ghost use Rattle.ice_carry_tails.specs.Ends.{tables_of, tailed};
ghost use Rattle.ice_carry_tails.specs.Tailable.{HasRoomForTails};

use crate::adding::with_tails;
use crate::choosing::tables_of;
use crate::laws::{tailed_are_sound, tailed_show_the_same};
use ice_base::NoMemory;
use ice_check::{Sound, check_sound};
use std::alloc::Global;

// The netlist with its carries, which are at these tables.
fn grown(alloc: Global, sound: Sound, tables: &[usize]) -> Result<Sound, NoMemory>
    requires tables { tables.now ≡ tables_of sound }
    requires room { HasRoomForTails sound }
    ensures { IfOk result (λ made. made ≡ tailed sound) }
{
    tailed_are_sound();
    sound.is_sound();
    let made = with_tails(alloc, sound.into_netlist(), tables)?;
    let made = check_sound(alloc, made)?;
    Ok(made)
}

// What is known of the netlist with its carries.
fn tailed_is_sound(sound: &Sound)
    ensures sound { IsSound (tailed sound.now) }
    ensures shows { (levels : List (List Bool))
        → shows (tailed sound.now) levels ≡ shows sound.now levels }
{
    tailed_are_sound();
    tailed_show_the_same();
    sound.is_sound();
}

// The netlist with its carries; itself where it gets none.
fn grown_or_same(alloc: Global, sound: Sound) -> Result<Sound, NoMemory>
    requires { HasRoomForTails sound }
    ensures { IfOk result (λ made. made ≡ tailed sound) }
{
    let tables = tables_of(alloc, &sound)?;
    if tables.is_empty() {
        return Ok(sound);
    }
    grown(alloc, sound, &tables)
}

/// The netlist in which a look-up table at which a chain of carries ends has a carry of its own, which nothing reads. It reads what the table
/// reads at its second, third and last input, and shares the table's logic cell, so that this is the next cell of the chain's run. A chain ends at
/// a look-up table where a carry is read once in all, by the last input of the table; those tables get a carry that would share it behind all
/// others. Nothing else changes. The netlist is sound, has the same ports, and shows for every list of levels what it showed before.
///
/// No name of the netlist may end with a blank and `tail`, and it has fewer than 1,073,000,000 cells.
///
/// # Errors
/// Want of memory alone.
pub fn add_tails(alloc: Global, sound: Sound) -> Result<Sound, NoMemory>
    requires { HasRoomForTails sound }
    ensures netlist { IfOk result (λ made. made ≡ tailed sound) }
    ensures sound { IsSound (tailed sound) }
    ensures ports { IfOk result (λ made. made.ports ≡ sound.ports) }
    ensures shows { IfOk result (λ made.
        (levels : List (List Bool)) → shows made levels ≡ shows sound levels) }
{
    tailed_is_sound(&sound);
    let made = grown_or_same(alloc, sound)?;
    Ok(made)
}
