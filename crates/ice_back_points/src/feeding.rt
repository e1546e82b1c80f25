//! Which pads feed globals.
ghost use Rattle.std.specs.Prelude.{◌≡◌, ◌&&◌};
ghost use Rattle.std.specs.List.{list_any};
ghost use Rattle.ice_chip.specs.Lookups.{gbufpin_of};
ghost use Rattle.ice_bits.specs.Configuration.{bits_of};
ghost use Rattle.ice_decode.specs.Direct.{globals, takes_pad};
ghost use Rattle.ice_decode.specs.Refusals.{IsCircuitOf};
ghost use Rattle.ice_back_laws.specs.Roots.{is_feeder, feeds_global};

use ice_chip::{Chip, Pad};
use ice_decode::{Circuit, is_enabled};

// Whether the pad is the one that can feed a global.
fn is_feeder(pad: Pad, feeder: Option<Pad>) -> bool
    ensures { result ≡ is_feeder pad feeder }
{
    match feeder {
        None => false,
        Some(feeder) => feeder == pad,
    }
}

// Whether a global has the level of the pad.
fn has_level(chip: &Chip, circuit: &Circuit, pad: Pad, global: u8) -> bool
    requires { IsCircuitOf chip.now circuit.now.configuration circuit.now }
    ensures { result ≡ (takes_pad chip.now circuit.now.configuration.extras global
        && is_feeder pad (gbufpin_of chip.now global)) }
{
    circuit.takes_pad(global) && is_feeder(pad, chip.gbufpin_of(global))
}

// Whether one of the eight globals has the level of the pad.
fn some_has_level(chip: &Chip, circuit: &Circuit, pad: Pad) -> bool
    requires { IsCircuitOf chip.now circuit.now.configuration circuit.now }
    ensures { result ≡ list_any
        (λ n. takes_pad chip.now circuit.now.configuration.extras n
        && is_feeder pad (gbufpin_of chip.now n))
        globals }
{
    has_level(chip, circuit, pad, 0)
        || has_level(chip, circuit, pad, 1)
        || has_level(chip, circuit, pad, 2)
        || has_level(chip, circuit, pad, 3)
        || has_level(chip, circuit, pad, 4)
        || has_level(chip, circuit, pad, 5)
        || has_level(chip, circuit, pad, 6)
        || has_level(chip, circuit, pad, 7)
}

/// Whether the pad's level is on some global.
pub(crate) fn feeds_global(chip: &Chip, circuit: &Circuit, pad: Pad) -> bool
    requires { IsCircuitOf chip.now circuit.now.configuration circuit.now }
    ensures { result ≡ feeds_global chip.now (bits_of circuit.now.configuration)
        circuit.now.configuration.extras pad }
{
    is_enabled(chip, circuit.bits(), pad) && some_has_level(chip, circuit, pad)
}
