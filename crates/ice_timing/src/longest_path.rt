//! The longest path of a configured chip.
ghost use Rattle.std.specs.Prelude.{IfOk, reverse};
ghost use Rattle.ice_bits.specs.Configuration.{bits_of};
ghost use Rattle.ice_base_values.specs.Order.{Has};
ghost use Rattle.ice_decode.specs.Refusals.{IsCircuitOf};
ghost use Rattle.ice_timing.specs.Arriving.{AreArrivalsOf};
ghost use Rattle.ice_timing.specs.Timed.{IsTimedTo, IsFound};

use crate::ends::entries;
use crate::latest_end::latest_entry;
use crate::{Arrivals, TimedPath};
use ice_base::NoMemory;
use ice_chip::Chip;
use ice_decode::{Circuit, Point};
use ice_timing_delays::Delays;
use std::alloc::Global;

// The longest path to a point, with when the signal is at each of its points, from its end to its beginning: behind each point stands the
// latest on which it depends. A path has no more points than an order of evaluation.
fn points_back(
    alloc: Global,
    chip: &Chip,
    circuit: &Circuit,
    delays: &Delays,
    arrivals: &Arrivals,
    last: Point,
) -> Result<Vec<(Point, u64)>, NoMemory>
    requires circuit { IsCircuitOf chip.now circuit.now.configuration circuit.now }
    requires arrivals { AreArrivalsOf chip.now (bits_of circuit.now.configuration)
        circuit.now.configuration.extras delays.now arrivals.now }
    requires last { Has arrivals.now.points last }
    ensures { IfOk result (λ points. IsTimedTo chip.now (bits_of circuit.now.configuration)
        circuit.now.configuration.extras delays.now last (reverse points.items)) }
{
    let (_wires, _delays) = (chip.wires(), delays);
    let mut points = Vec::new(alloc);
    let mut point = last;
    for _step in circuit.order() {
        points.push((point, arrivals.of(point)))?;
        let Some(before) = arrivals.before(alloc, chip, circuit, point)? else {
            return Ok(points);
        };
        point = before;
    }
    Ok(points)
}

// The same from its beginning to its end.
fn path_to(
    alloc: Global,
    chip: &Chip,
    circuit: &Circuit,
    delays: &Delays,
    arrivals: &Arrivals,
    last: Point,
) -> Result<Vec<(Point, u64)>, NoMemory>
    requires circuit { IsCircuitOf chip.now circuit.now.configuration circuit.now }
    requires arrivals { AreArrivalsOf chip.now (bits_of circuit.now.configuration)
        circuit.now.configuration.extras delays.now arrivals.now }
    requires last { Has arrivals.now.points last }
    ensures { IfOk result (λ points. IsTimedTo chip.now (bits_of circuit.now.configuration)
        circuit.now.configuration.extras delays.now last points.items) }
{
    let mut points = points_back(alloc, chip, circuit, delays, arrivals, last)?;
    points.reverse();
    Ok(points)
}

/// A path to an end on which a signal takes longest, or None exactly where no path leads to an end. The arrivals are those of the circuit
/// with these delays.
///
/// # Errors
/// Want of memory alone.
pub fn longest(
    alloc: Global,
    chip: &Chip,
    circuit: &Circuit,
    delays: &Delays,
    arrivals: &Arrivals,
) -> Result<Option<TimedPath>, NoMemory>
    requires circuit { IsCircuitOf chip.now circuit.now.configuration circuit.now }
    requires arrivals { AreArrivalsOf chip.now (bits_of circuit.now.configuration)
        circuit.now.configuration.extras delays.now arrivals.now }
    ensures { IfOk result (IsFound chip.now (bits_of circuit.now.configuration)
        circuit.now.configuration.extras delays.now) }
{
    chip.is_chip();
    let entries = entries(alloc, chip, circuit.bits())?;
    let Some(latest) = latest_entry(arrivals, delays, &entries) else {
        return Ok(None);
    };
    let points = path_to(alloc, chip, circuit, delays, arrivals, latest.entry.last)?;
    Ok(Some(TimedPath {
        points,
        end: latest.entry.end,
        at: latest.at,
    }))
}
