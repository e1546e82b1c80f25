//! The wires of pins, and sinks of one pin.
ghost use Rattle.std.specs.Prelude.{◌≡◌, ◌++◌, ◌∷◌, [], map, option_map, IfOk, OnOk};
ghost use Rattle.std.specs.List.{cons_option};
ghost use Rattle.ice_chip.specs.Lookups.{wire_named};
ghost use Rattle.ice_chip.specs.Names.{input_name};
ghost use Rattle.ice_chip_sockets.specs.Sockets.{driven_name};
ghost use Rattle.ice_place_defs.specs.Loads.{load_at};
ghost use Rattle.ice_emit_nets.specs.Ends.{wire_no, pin_wire, pin_wires, load_end};
ghost use Rattle.ice_emit_nets.specs.Pins.{pin_in};

use ice_base::{NoMemory, Sink, TileAt, WireNo};
use ice_cells::Root;
use ice_chip::{
    Chip, Pad, clock_enable_name, clock_name, fabout_name, input_name, output_enable_name,
    set_reset_name,
};
use ice_chip_sockets::driven_wire;
use std::alloc::Global;

/// A pin of a tile that reads.
#[derive(Clone, Copy)]
pub enum TilePin {
    /// An input of a cell: the number of the cell's slot, and that of the input.
    Input(usize, u8),
    /// The clock that the flip-flops of a tile share.
    Clock,
    /// Their enable.
    Enable,
    /// Their set or reset.
    SetReset,
    /// What feeds a global.
    Feed,
    /// What a pad is driven with: one of an IO tile, or a pin of a block RAM.
    Drive(u8),
    /// What enables a pad.
    DriveEnable(u8),
}

// The wire that has the name in the tile.
#[tactic(auto, using(crate::proofs::Targets::wire_is))]
pub(crate) fn named(chip: &Chip, tile: TileAt, name: &[u8]) -> Option<WireNo>
    ensures { result ≡ option_map wire_no (wire_named chip.now tile name.now) }
{
    chip.wire_named(tile, name)
}

// The wire of an input of a cell; the name of a slot has the last digit of its number alone.
fn input_wire(chip: &Chip, tile: TileAt, i: usize, input: u8) -> Option<WireNo>
    ensures { result ≡ option_map wire_no (wire_named chip.now tile (input_name i input)) }
{
    named(chip, tile, &input_name((i % 10) as u8, input))
}

// The wire that drives a pad.
#[tactic(auto, using(crate::proofs::Targets::wire_is))]
fn drive_wire(chip: &Chip, tile: TileAt, pio: u8) -> Option<WireNo>
    ensures { result ≡ option_map wire_no (wire_named chip.now tile (driven_name pio)) }
{
    driven_wire(chip, Pad { tile, pio })
}

/// The wire of a pin, where the tile has it. It takes no memory.
pub fn pin_wire(chip: &Chip, tile: TileAt, pin: TilePin) -> Option<WireNo>
    ensures { result ≡ pin_wire chip.now tile (pin_in pin) }
{
    match pin {
        TilePin::Input(i, input) => input_wire(chip, tile, i, input),
        TilePin::Clock => named(chip, tile, &clock_name()),
        TilePin::Enable => named(chip, tile, &clock_enable_name()),
        TilePin::SetReset => named(chip, tile, &set_reset_name()),
        TilePin::Feed => named(chip, tile, &fabout_name()),
        TilePin::Drive(pio) => drive_wire(chip, tile, pio),
        TilePin::DriveEnable(pio) => named(chip, tile, &output_enable_name(pio)),
    }
}

// Adds a wire, if there is one.
pub(crate) fn push_wire(targets: &mut Vec<WireNo>, wire: Option<WireNo>) -> Result<(), NoMemory>
    ensures { OnOk result (targets.new.items ≡ targets.old.items ++ cons_option wire []) }
{
    if let Some(wire) = wire {
        targets.push(wire)?;
    }
    Ok(())
}

// The sink of a pin.
fn pin_sink(alloc: Global, chip: &Chip, tile: TileAt, pin: TilePin) -> Result<Sink, NoMemory>
    ensures { IfOk result (λ sink. sink ≡ pin_wires chip.now tile (pin_in pin ∷ [])) }
{
    let mut targets = Vec::new(alloc);
    push_wire(&mut targets, pin_wire(chip, tile, pin))?;
    Ok(Sink::from_targets(targets))
}

// Adds the sink of a pin, if the pin reads a root.
pub(crate) fn push_load(
    alloc: Global,
    ends: &mut Vec<(Root, Sink)>,
    chip: &Chip,
    tile: TileAt,
    pin: TilePin,
    root: Option<Root>,
) -> Result<(), NoMemory>
    ensures { OnOk result (ends.new.items
        ≡ ends.old.items ++ map (load_end chip.now) (load_at tile (pin_in pin) root)) }
{
    let Some(root) = root else {
        return Ok(());
    };
    ends.push((root, pin_sink(alloc, chip, tile, pin)?))?;
    Ok(())
}
