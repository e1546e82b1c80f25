//! The cells of pads: SB_IO, registers and SB_GB.
ghost use Rattle.std.specs.Prelude.{◌≡◌, ◌<◌, ◌^◌, false, if◌then◌else◌, IfOk};
ghost use Rattle.ice_chip.specs.Names.{pad_output_name};
ghost use Rattle.ice_bits.specs.Configuration.{bits_of};
ghost use Rattle.ice_back_laws.specs.Back.{pin_reader, buffer_part, buffer_type, driven_reader, pad_cell, register_cell, input_cell, output_cell, level_cell};
ghost use Rattle.ice_back_laws.specs.Numbers.{signal, input_number, given_number};
ghost use Rattle.ice_back_laws.specs.Roots.{is_registered};

use crate::cells::made;
use ice_back_points::ConfiguredChip;
use ice_base::{NoMemory, SignalNo, TileAt};
use ice_chip::{
    Pad, in_out_enable_name, input_clock_name, output_clock_name, output_enable_name,
    pad_output_name,
};
use ice_decode::{has_output_register, pin_type};
use ice_net::{Cell, CellKind, Reset};
use std::alloc::Global;

// ---- the SB_IO
// The output part of a pad's SB_IO: a pad that is driven with what a register keeps is simply driven.
fn buffer_part(part: u8) -> u8
    requires { part < 16 }
    ensures value { result ≡ buffer_part part }
    ensures small { result < 16 }
{
    if part == 5 {
        return 6;
    }
    part
}

// The PIN_TYPE of a pad's SB_IO: that output part, and the input part of a plain input.
fn buffer_type(configured: &ConfiguredChip<'_>, pad: Pad) -> u8
    ensures { result ≡ buffer_type configured.now.parts (bits_of configured.now.configuration) pad }
{
    4 * buffer_part(pin_type(configured.chip(), configured.bits(), pad) / 4) + 1
}

// What the pad of a number gives: to its register, if the netlist has it.
fn given(configured: &ConfiguredChip<'_>, number: u32, pad: Pad) -> SignalNo
    requires { number < 2 ^ 28 }
    ensures { result
        ≡ signal (if is_registered configured.now.parts (bits_of configured.now.configuration) pad
        then given_number number else input_number number) }
{
    if configured.is_registered(pad) {
        return SignalNo(4 + 5 * number);
    }
    SignalNo(3 + 5 * number)
}

// What reads the level at the D_OUT_0 of a pad.
fn output_reader(configured: &ConfiguredChip<'_>, pad: Pad) -> Option<SignalNo>
    ensures { result ≡ pin_reader configured.now.parts (bits_of configured.now.configuration)
        configured.now.configuration.extras configured.now.bonded.pads false pad.tile
        (pad_output_name pad.pio) }
{
    configured.pin_reader(false, pad.tile, &pad_output_name(pad.pio))
}

// What the pad of a number is driven with.
fn driven_reader(configured: &ConfiguredChip<'_>, number: u32, pad: Pad) -> Option<SignalNo>
    requires { number < 2 ^ 28 }
    ensures { result ≡ driven_reader configured.now.parts (bits_of configured.now.configuration)
        configured.now.configuration.extras configured.now.bonded.pads (number, pad) }
{
    if has_output_register(configured.chip(), configured.bits(), pad) {
        return Some(SignalNo(5 + 5 * number));
    }
    output_reader(configured, pad)
}

/// The SB_IO of the pad of a number.
pub(crate) fn pad_cell(
    alloc: Global,
    configured: &ConfiguredChip<'_>,
    number: u32,
    pad: Pad,
) -> Result<Cell, NoMemory>
    requires { number < 2 ^ 28 }
    ensures { IfOk result (λ made.
        made ≡ pad_cell configured.now.parts (bits_of configured.now.configuration)
        configured.now.configuration.extras configured.now.bonded.pads (number, pad)) }
{
    let kind = CellKind::PadCell {
        pin_type: buffer_type(configured, pad),
        pullup: false,
    };
    let port = Some(SignalNo(2 + 5 * number));
    let level = driven_reader(configured, number, pad);
    let enable = configured.pin_reader(false, pad.tile, &output_enable_name(pad.pio));
    let ins = [port, level, enable, None, None, None, None, None];
    made(
        alloc,
        kind,
        &ins,
        &[Some(given(configured, number, pad)), None],
    )
}

// ---- the cells beside it
// A register of a pad, by the name of its clock's wire.
fn register_cell(
    alloc: Global,
    configured: &ConfiguredChip<'_>,
    tile: TileAt,
    clock_name: &[u8],
    datum: Option<SignalNo>,
    output: u32,
) -> Result<Cell, NoMemory>
    ensures { IfOk result (λ made. made ≡ register_cell configured.now.parts
        (bits_of configured.now.configuration) configured.now.configuration.extras
        configured.now.bonded.pads tile clock_name.now datum output) }
{
    let kind = CellKind::Flop {
        falling: false,
        enable: true,
        reset: Reset::Nothing,
    };
    let ins = [
        configured.pin_reader(false, tile, clock_name),
        datum,
        configured.pin_reader(true, tile, &in_out_enable_name()),
    ];
    made(alloc, kind, &ins, &[Some(SignalNo(output))])
}

/// The register that takes what the pad of a number gives.
pub(crate) fn input_cell(
    alloc: Global,
    configured: &ConfiguredChip<'_>,
    number: u32,
    pad: Pad,
) -> Result<Cell, NoMemory>
    requires { number < 2 ^ 28 }
    ensures { IfOk result (λ made.
        made ≡ input_cell configured.now.parts (bits_of configured.now.configuration)
        configured.now.configuration.extras configured.now.bonded.pads (number, pad)) }
{
    let datum = Some(SignalNo(4 + 5 * number));
    register_cell(
        alloc,
        configured,
        pad.tile,
        &input_clock_name(),
        datum,
        3 + 5 * number,
    )
}

/// The register that the pad of a number is driven with.
pub(crate) fn output_cell(
    alloc: Global,
    configured: &ConfiguredChip<'_>,
    number: u32,
    pad: Pad,
) -> Result<Cell, NoMemory>
    requires { number < 2 ^ 28 }
    ensures { IfOk result (λ made.
        made ≡ output_cell configured.now.parts (bits_of configured.now.configuration)
        configured.now.configuration.extras configured.now.bonded.pads (number, pad)) }
{
    let datum = output_reader(configured, pad);
    register_cell(
        alloc,
        configured,
        pad.tile,
        &output_clock_name(),
        datum,
        5 + 5 * number,
    )
}

/// The SB_GB of the pad of a number.
pub(crate) fn level_cell(alloc: Global, number: u32) -> Result<Cell, NoMemory>
    requires { number < 2 ^ 28 }
    ensures { IfOk result (λ made. made ≡ level_cell number) }
{
    made(
        alloc,
        CellKind::Global,
        &[Some(SignalNo(2 + 5 * number))],
        &[Some(SignalNo(6 + 5 * number))],
    )
}
