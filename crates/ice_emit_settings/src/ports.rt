//! The settings of the pads of ports.
ghost use Rattle.std.specs.Prelude.{◌≡◌, ◌<◌, ◌++◌, [], OnOk};
ghost use Rattle.std.specs.Option.{option_map_or};
ghost use Rattle.ice_chip.specs.Lookups.{ieren_of};
ghost use Rattle.ice_emit_defs.specs.Functions.{type_settings, off_setting, pull_up_settings, ports_settings};
ghost use Rattle.ice_emit_settings.specs.Ports.{place_in, digit_settings, port_gives};
ghost use Rattle.ice_emit_settings.specs.Views.{views};

use crate::making::{digit, push, push_if};
use ice_base::NoMemory;
use ice_cells::DesignPad;
use ice_chip::{Chip, Pad, TileFunction};
use ice_emit_bits::Setting;

// Adds a digit of a pin type, where it is 1.
fn push_digit(made: &mut Vec<Setting>, pad: Pad, pin_type: u8, place: u8) -> Result<(), NoMemory>
    requires { place < 6 }
    ensures { OnOk result
        (views made.new.items ≡ views made.old.items ++ digit_settings pad pin_type place) }
{
    push_if(
        made,
        digit(pin_type, place),
        pad.tile,
        TileFunction::PinType(pad.pio, place),
        0,
    )?;
    Ok(())
}

// Adds the digits of a pin type that are 1.
fn push_type(made: &mut Vec<Setting>, pad: Pad, pin_type: u8) -> Result<(), NoMemory>
    ensures { OnOk result
        (views made.new.items ≡ views made.old.items ++ type_settings pad pin_type) }
{
    for place in 0..6u8 {
        push_digit(made, pad, pin_type, place)?;
    }
    Ok(())
}

// Adds that no pull-up is on at a pad that has one.
fn push_off(made: &mut Vec<Setting>, place: Option<Pad>) -> Result<(), NoMemory>
    ensures { OnOk result
        (views made.new.items ≡ views made.old.items ++ option_map_or off_setting place []) }
{
    match place {
        None => Ok(()),
        Some(place) => push(made, place.tile, TileFunction::PullUp(place.pio), 0),
    }
}

// Adds that the pull-up of a pad is off, unless it is wanted.
fn push_pull_up(
    made: &mut Vec<Setting>,
    chip: &Chip,
    pad: Pad,
    pullup: bool,
) -> Result<(), NoMemory>
    ensures { OnOk result
        (views made.new.items ≡ views made.old.items ++ pull_up_settings chip.now pad pullup) }
{
    if pullup {
        return Ok(());
    }
    push_off(made, chip.ieren_of(pad))?;
    Ok(())
}

// Adds the settings of a port's pad in an IO tile.
fn push_pad(
    made: &mut Vec<Setting>,
    chip: &Chip,
    port: DesignPad,
    pad: Pad,
    pullup: bool,
) -> Result<(), NoMemory>
    ensures { OnOk result (views made.new.items ≡ views made.old.items
        ++ (type_settings pad port.pin_type ++ pull_up_settings chip.now pad pullup)) }
{
    push_type(made, pad, port.pin_type)?;
    push_pull_up(made, chip, pad, pullup)?;
    Ok(())
}

// Adds the settings of a port's pad, unless it is a pin of a block RAM.
#[tactic(auto, using(crate::proofs::Beside::pad_added, crate::proofs::Beside::pin_passed))]
fn push_port(
    made: &mut Vec<Setting>,
    chip: &Chip,
    port: DesignPad,
    place: (Pad, bool),
) -> Result<(), NoMemory>
    ensures { OnOk result
        (views made.new.items ≡ views made.old.items ++ port_gives chip.now port place) }
{
    let (pad, pullup) = place;
    if pad.pio < 2 {
        push_pad(made, chip, port, pad, pullup)?;
    }
    Ok(())
}

// The same, if there is a pad for it.
fn push_port_at(
    made: &mut Vec<Setting>,
    chip: &Chip,
    port: DesignPad,
    place: Option<(Pad, bool)>,
) -> Result<(), NoMemory>
    ensures { OnOk result (views made.new.items
        ≡ views made.old.items ++ option_map_or (port_gives chip.now port) place []) }
{
    match place {
        None => Ok(()),
        Some(place) => push_port(made, chip, port, place),
    }
}

// The pad of that number, and whether it is pulled up.
fn place_at(pads: &[Pad], pullups: &[bool], k: usize) -> Option<(Pad, bool)>
    ensures { result ≡ place_in pads.now pullups.now k }
{
    pads.get(k).copied().zip(pullups.get(k).copied())
}

/// Adds the settings of the pads of ports: the digits of their types that are 1, and the pull-ups that are off. A port without a pad,
/// or at a pin of a block RAM, gets none.
///
/// # Errors
/// Want of memory alone; some of them may be added then.
pub fn push_ports(
    made: &mut Vec<Setting>,
    chip: &Chip,
    pads: &[Pad],
    pullups: &[bool],
    ports: &[DesignPad],
) -> Result<(), NoMemory>
    ensures { OnOk result (views made.new.items
        ≡ views made.old.items ++ ports_settings chip.now pads.now pullups.now ports.now) }
{
    for (k, port) in ports.iter().enumerate() {
        push_port_at(made, chip, *port, place_at(pads, pullups, k))?;
    }
    Ok(())
}
