//! Circuits: bits without a fault.
ghost use Rattle.std.specs.Prelude.{◌≡◌, ◌<◌, Some, false, length, map, slice_get, slice_index_or};
ghost use Rattle.ice_chip.specs.Database.{Parts};
ghost use Rattle.ice_bits.specs.Configuration.{bits_of};
ghost use Rattle.ice_decode.specs.Direct.{takes_pad};
ghost use Rattle.ice_decode.specs.DrivingRows.{row_of};
ghost use Rattle.ice_decode.specs.Laws.{IsDriverOf};
ghost use Rattle.ice_decode.specs.Refusals.{CircuitData, IsCircuitOf};

use crate::direct::direct_at;
use crate::{Driver, Point};
use ice_base::{RowNo, WireNo};
use ice_bits::Bits;
use std::marker::Model;

/// The circuit in bits without a fault. Contracts see the bits, what drives each wire, which globals have the level of a pad, and an
/// order of evaluation.
#[derive(Drop)]
pub struct Circuit {
    bits: Bits,
    drivers: Vec<Driver>,
    direct: [bool; 8],
    order: Vec<Point>,
}

impl Model for Circuit {
    ghost use Rattle.ice_decode.specs.Refusals.{CircuitData};

    ghost Value = { CircuitData };

    ghost view = { λ c. record {
      configuration = c.bits;
      drivers = c.drivers.items;
      direct = c.direct;
      order = c.order.items;
    } };
}

impl Circuit {
    // The number of the one row that drives a wire, as the table of drivers has it.
    fn row_kept(&self, wire: WireNo) -> Option<RowNo>
        requires { wire.0 < length self.now.drivers }
        ensures { slice_get (map row_of self.now.drivers) wire.0 ≡ Some result }
    {
        match self.drivers[wire.0 as usize] {
            Driver::Nothing | Driver::Several(_, _) => None,
            Driver::By(switch) => Some(switch.row),
        }
    }

    /// The row of switches that drives a wire, or None exactly where no row into the wire is on. The wire is one of the chip. Takes no
    /// memory, as the other readers.
    pub fn driver(&self, wire: WireNo) -> Option<RowNo>
        requires { wire.0 < length self.now.drivers }
        ensures kept { slice_get (map row_of self.now.drivers) wire.0 ≡ Some result }
        ensures driver { (parts : Parts) → IsCircuitOf parts self.now.configuration self.now
            → wire.0 < parts.wires
            → IsDriverOf parts (bits_of self.now.configuration) wire.0 result }
    {
        self.row_kept(wire)
    }

    /// What drives each wire, by its number.
    pub fn drivers(&self) -> &[Driver]
        ensures { result.now ≡ self.now.drivers }
    {
        self.drivers.as_slice()
    }

    /// Whether each global has the level of a pad, by its number.
    pub fn direct(&self) -> &[bool]
        ensures { result.now ≡ self.now.direct }
    {
        self.direct.as_slice()
    }

    /// Whether a global has the level of a pad: its extra bit is set.
    pub fn takes_pad(&self, global: u8) -> bool
        ensures kept { result ≡ slice_index_or self.now.direct global false }
        ensures told { (parts : Parts) → IsCircuitOf parts self.now.configuration self.now
            → result ≡ takes_pad parts self.now.configuration.extras global }
    {
        direct_at(self.direct(), global)
    }

    /// Each wire and each logic cell's carry once, after all that it depends on.
    pub fn order(&self) -> &[Point]
        ensures { result.now ≡ self.now.order }
    {
        self.order.as_slice()
    }

    /// The bits that were decoded.
    pub fn bits(&self) -> &Bits
        ensures { result.now ≡ self.now.configuration }
    {
        &self.bits
    }

    /// The circuit of these bits, by what drives each wire, which globals have the level of a pad, and an order of evaluation. Takes no
    /// memory.
    pub fn of(bits: Bits, drivers: Vec<Driver>, direct: [bool; 8], order: Vec<Point>) -> Circuit
        ensures { result ≡ record {
          configuration = bits;
          drivers = drivers.items;
          direct = direct;
          order = order.items;
        } }
    {
        Circuit {
            bits,
            drivers,
            direct,
            order,
        }
    }
}
