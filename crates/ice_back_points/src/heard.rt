//! Whether something reads what a pad gives.
ghost use Rattle.std.specs.Prelude.{◌≡◌, ◌<◌, IfSome, map, option_map};
ghost use Rattle.std.specs.List.{list_any, range_with_len};
ghost use Rattle.ice_chip.specs.Lookups.{names_of};
ghost use Rattle.ice_bits.specs.Configuration.{bits_of};
ghost use Rattle.ice_decode.specs.Drivers.{driver};
ghost use Rattle.ice_decode.specs.Refusals.{AreDrivers};
ghost use Rattle.ice_back_laws.specs.Roots.{leads_from, is_reading_name, is_heard_at, is_heard};

use ice_base::WireNo;
use ice_chip::{Chip, Pad, PlacedName, TileKind, is_input_name, pad_input_name};
use ice_decode::{Circuit, Driver};

// Whether the row that drives a wire leads from this one.
fn leads_from(driver: Driver, wire: WireNo) -> bool
    ensures { result ≡ leads_from wire.0 driver }
{
    match driver {
        Driver::Nothing | Driver::Several(_, _) => false,
        Driver::By(switch) => switch.source.0 == wire.0,
    }
}

// Whether a row that drives a wire leads from this one.
fn some_leads_from(drivers: &[Driver], wire: WireNo) -> bool
    ensures { result ≡ list_any (leads_from wire.0) drivers.now }
{
    for driver in drivers {
        if leads_from(*driver, wire) {
            return true;
        }
    }
    false
}

// Whether a cell or a pad reads the wire that has this name.
fn is_reading_name(name: &PlacedName) -> bool
    ensures { result ≡ is_reading_name name.now }
{
    is_input_name(TileKind::Io, name.name.as_bytes())
        || is_input_name(TileKind::Logic, name.name.as_bytes())
}

// Whether a cell or a pad reads a wire by one of its names.
fn is_read_by_name(chip: &Chip, wire: WireNo) -> bool
    requires { wire.0 < chip.now.wires }
    ensures { result ≡ list_any is_reading_name (names_of chip.now wire.0) }
{
    for name in chip.names(wire) {
        if is_reading_name(name) {
            return true;
        }
    }
    false
}

// Whether a row that drives a wire of the chip leads from this one.
fn is_source(chip: &Chip, circuit: &Circuit, wire: WireNo) -> bool
    requires { AreDrivers chip.now (bits_of circuit.now.configuration) circuit.now.drivers }
    ensures { result ≡ list_any (leads_from wire.0) (map
        (driver chip.now (bits_of circuit.now.configuration)) (range_with_len 0 chip.now.wires)) }
{
    let _chip = chip;
    some_leads_from(circuit.drivers(), wire)
}

// Whether something reads a wire.
fn is_heard_at(chip: &Chip, circuit: &Circuit, wire: Option<WireNo>) -> bool
    requires drivers { AreDrivers chip.now (bits_of circuit.now.configuration) circuit.now.drivers }
    requires wire { IfSome wire (λ wire. wire.0 < chip.now.wires) }
    ensures { result ≡ is_heard_at chip.now (bits_of circuit.now.configuration)
        (option_map (λ wire. wire.0) wire) }
{
    match wire {
        None => false,
        Some(wire) => is_source(chip, circuit, wire) || is_read_by_name(chip, wire),
    }
}

/// Whether something reads the wire of a pad. It takes no memory.
pub(crate) fn is_heard(chip: &Chip, circuit: &Circuit, pad: Pad) -> bool
    requires { AreDrivers chip.now (bits_of circuit.now.configuration) circuit.now.drivers }
    ensures { result ≡ is_heard chip.now (bits_of circuit.now.configuration) pad }
{
    chip.is_chip();
    let wire = chip.wire_named(pad.tile, &pad_input_name(pad.pio));
    is_heard_at(chip, circuit, wire)
}
