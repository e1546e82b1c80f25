//! When signals start at points, and how long they take to others.
ghost use Rattle.std.specs.Prelude.{◌≡◌, ◌<◌, ◌^◌, if◌then◌else◌};
ghost use Rattle.ice_bits.specs.Configuration.{bits_of};
ghost use Rattle.ice_decode.specs.Drivers.{driver};
ghost use Rattle.ice_decode.specs.Points.{HasWire};
ghost use Rattle.ice_decode.specs.Refusals.{IsCircuitOf};
ghost use Rattle.ice_timing.specs.PointDelays.{is_fed_by_pad, role_start, start_of, role_delay, delay_of};

use ice_base::WireNo;
use ice_chip::Chip;
use ice_decode::{Circuit, Driver, Point, Role, has_flop, has_input_register, role_of};
use ice_timing_delays::Delays;

// What drives a wire of the chip.
fn driver_of(chip: &Chip, circuit: &Circuit, wire: WireNo) -> Driver
    requires circuit { IsCircuitOf chip.now circuit.now.configuration circuit.now }
    requires wire { wire.0 < chip.now.wires }
    ensures { result ≡ driver chip.now (bits_of circuit.now.configuration) wire.0 }
{
    let _chip = chip;
    circuit.drivers()[wire.0 as usize]
}

// Whether a global has the level of a pad of the database.
fn is_fed_by_pad(chip: &Chip, circuit: &Circuit, global: u8) -> bool
    requires { IsCircuitOf chip.now circuit.now.configuration circuit.now }
    ensures { result ≡ is_fed_by_pad chip.now circuit.now.configuration.extras global }
{
    circuit.takes_pad(global) && chip.gbufpin_of(global).is_some()
}

// A start where a signal comes in so, and else 0.
fn start_if(comes_in: bool, start: u32) -> u32
    ensures { result ≡ if comes_in then start else 0 }
{
    if comes_in { start } else { 0 }
}

// When a signal is at a wire without a row that is on, by its role.
fn role_start(chip: &Chip, circuit: &Circuit, delays: &Delays, role: Role) -> u32
    requires { IsCircuitOf chip.now circuit.now.configuration circuit.now }
    ensures { result ≡ role_start chip.now (bits_of circuit.now.configuration)
        circuit.now.configuration.extras delays.now role }
{
    let bits = circuit.bits();
    match role {
        Role::Output { tile, cell } => start_if(
            has_flop(chip, bits, tile, cell),
            delays.clock_to_q,
        ),
        Role::PadInput(pad) => {
            if has_input_register(chip, bits, pad) {
                delays.clock_to_q
            } else {
                delays.pad_in
            }
        }
        Role::RamOutput(_) => delays.clock_to_q,
        Role::Global(global) => start_if(is_fed_by_pad(chip, circuit, global), delays.pad_in),
        Role::Plain
        | Role::LookUp { .. }
        | Role::CarryOut { .. }
        | Role::CarryIn(_)
        | Role::ClockEnable => 0,
    }
}

/// When a signal is at a point that depends on nothing.
pub(crate) fn start_of(chip: &Chip, circuit: &Circuit, delays: &Delays, point: Point) -> u32
    requires circuit { IsCircuitOf chip.now circuit.now.configuration circuit.now }
    requires point { HasWire chip.now point }
    ensures small { result < 2 ^ 32 }
    ensures value { result ≡ start_of chip.now (bits_of circuit.now.configuration)
        circuit.now.configuration.extras delays.now point }
{
    match point {
        Point::Wire(wire) => match driver_of(chip, circuit, wire) {
            Driver::Nothing => role_start(chip, circuit, delays, role_of(chip, wire)),
            Driver::By(_) | Driver::Several(_, _) => 0,
        },
        Point::Carry { .. } => 0,
    }
}

// How long a signal takes to a wire without a row that is on, by its role.
fn role_delay(delays: &Delays, role: Role) -> u32
    ensures { result ≡ role_delay delays.now role }
{
    match role {
        Role::Output { .. } | Role::LookUp { .. } => delays.lut,
        Role::Global(_) => delays.switch,
        Role::Plain
        | Role::CarryOut { .. }
        | Role::PadInput(_)
        | Role::RamOutput(_)
        | Role::CarryIn(_)
        | Role::ClockEnable => 0,
    }
}

/// How long a signal takes to a point from one of those on which it depends.
pub(crate) fn delay_of(chip: &Chip, circuit: &Circuit, delays: &Delays, point: Point) -> u32
    requires circuit { IsCircuitOf chip.now circuit.now.configuration circuit.now }
    requires point { HasWire chip.now point }
    ensures small { result < 2 ^ 32 }
    ensures value { result
        ≡ delay_of chip.now (bits_of circuit.now.configuration) delays.now point }
{
    let Delays { switch, carry, .. } = *delays;
    match point {
        Point::Wire(wire) => match driver_of(chip, circuit, wire) {
            Driver::Nothing => role_delay(delays, role_of(chip, wire)),
            Driver::By(_) => switch,
            Driver::Several(_, _) => 0,
        },
        Point::Carry { .. } => carry,
    }
}
