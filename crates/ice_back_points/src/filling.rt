//! The roots of all wires of a configured chip, one after another in an order of evaluation.
ghost use Rattle.std.specs.Prelude.{◌≡◌, ◌<◌, All, length, IfOk};
ghost use Rattle.ice_bits.specs.Configuration.{bits_of};
ghost use Rattle.ice_decode.specs.Drivers.{driver};
ghost use Rattle.ice_decode.specs.Points.{HasWire};
ghost use Rattle.ice_decode.specs.Refusals.{AreDrivers, IsCircuitOf};
ghost use Rattle.ice_decode.specs.Tables.{ComesFrom};
ghost use Rattle.ice_back_points.specs.Filling.{wire_root, filled, AreRoots};

use crate::roots::{role_root, switch_root};
use ice_back_laws::LevelRoot;
use ice_base::{NoMemory, WireNo};
use ice_chip::{Chip, Pad};
use ice_decode::{Circuit, Driver, Point, role_of};
use indexmap::IndexSet;
use std::alloc::Global;

// What drives a wire of the chip.
fn driver(chip: &Chip, circuit: &Circuit, wire: WireNo) -> Driver
    requires drivers { AreDrivers chip.now (bits_of circuit.now.configuration) circuit.now.drivers }
    requires wire { wire.0 < chip.now.wires }
    ensures driver { result ≡ driver chip.now (bits_of circuit.now.configuration) wire.0 }
    ensures source { ComesFrom chip.now.wires result }
{
    chip.is_chip();
    circuit.drivers()[wire.0 as usize]
}

// The root of a wire, where `roots` has the root of what passes its level on to it.
fn wire_root(
    chip: &Chip,
    circuit: &Circuit,
    pads: &IndexSet<Pad>,
    roots: &[LevelRoot],
    wire: WireNo,
) -> LevelRoot
    requires circuit { IsCircuitOf chip.now circuit.now.configuration circuit.now }
    requires wire { wire.0 < chip.now.wires }
    ensures { result ≡ wire_root chip.now (bits_of circuit.now.configuration)
        circuit.now.configuration.extras pads.now.keys roots.now wire.0 }
{
    let bits = circuit.bits();
    match driver(chip, circuit, wire) {
        Driver::Nothing => role_root(chip, circuit, pads, roots, role_of(chip, wire)),
        Driver::By(switch) => switch_root(chip, bits, roots, switch),
        Driver::Several(_, _) => LevelRoot::Fixed(false),
    }
}

// Gives these points their roots, one after another. Carries need no place, since their roots are those of the bits.
fn fill(
    chip: &Chip,
    circuit: &Circuit,
    pads: &IndexSet<Pad>,
    order: &[Point],
    roots: &mut [LevelRoot],
)
    requires circuit { IsCircuitOf chip.now circuit.now.configuration circuit.now }
    requires order { All (HasWire chip.now) order.now }
    requires long { length roots.old ≡ chip.now.wires }
    ensures { roots.new ≡ filled chip.now (bits_of circuit.now.configuration)
        circuit.now.configuration.extras pads.now.keys order.now roots.old }
{
    for point in order {
        if let Point::Wire(wire) = *point {
            roots[wire.0 as usize] = wire_root(chip, circuit, pads, roots, wire);
        }
    }
}

/// The roots of all wires of a configured chip in a package with these pads, each found once.
///
/// # Errors
/// Want of memory alone.
pub(crate) fn all_roots(
    alloc: Global,
    chip: &Chip,
    circuit: &Circuit,
    pads: &IndexSet<Pad>,
) -> Result<Vec<LevelRoot>, NoMemory>
    requires { IsCircuitOf chip.now circuit.now.configuration circuit.now }
    ensures { IfOk result (λ roots. AreRoots chip.now (bits_of circuit.now.configuration)
        circuit.now.configuration.extras pads.now.keys roots.items) }
{
    let mut roots = vec![in alloc; LevelRoot::Fixed(false); chip.wires() as usize]?;
    fill(chip, circuit, pads, circuit.order(), &mut roots);
    Ok(roots)
}
