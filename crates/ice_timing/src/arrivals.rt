//! When a signal arrives at each point.
ghost use Rattle.std.specs.Prelude.{◌≡◌, ◌<◌, ℕ, ◌≤◌, ◌^◌, List, length, replicate, slice_set, IfOk};
ghost use Rattle.ice_bits.specs.Configuration.{Bits, bits_of};
ghost use Rattle.ice_base_values.specs.Order.{Has};
ghost use Rattle.ice_chip.specs.Database.{Parts};
ghost use Rattle.ice_decode.specs.Points.{AreAllPoints};
ghost use Rattle.ice_decode.specs.Reads.{depends_on};
ghost use Rattle.ice_decode.specs.Refusals.{IsCircuitOf};
ghost use Rattle.ice_timing_delays.specs.declared.delays.Delays.{Delays as DelaysData};
ghost use Rattle.ice_timing.specs.PointDelays.{IsArrivalAt};
ghost use Rattle.ice_timing.specs.Arriving.{ArrivalsData, Arrives, AreArrivalsOf, AreWithin, AreFilled, IsReached, IsSoon, IsBefore};

use crate::delay::{delay_of, start_of};
use crate::latest::latest_read;
use ice_base::NoMemory;
use ice_chip::Chip;
use ice_decode::{Circuit, Numbering, Point};
use ice_timing_delays::Delays;
use std::alloc::Global;
use std::marker::Model;

/// Below so many points all moments are counted in 64 bits, whatever the delays are.
const MOST_POINTS: usize = 1 << 31;

/// When a signal arrives at each point of a configured chip, in picoseconds. Contracts see the points, and the arrivals at them.
#[derive(Drop)]
pub struct Arrivals {
    numbering: Numbering,
    at: Vec<u64>,
}

impl Model for Arrivals {
    ghost use Rattle.ice_timing.specs.Arriving.{ArrivalsData, arrivals_view, AreWellKept};

    ghost Value = { ArrivalsData };

    ghost view = { arrivals_view };

    ghost invariant = { AreWellKept };
}

// When a signal arrives at a point, by a table of when it is at those on which the point depends.
fn arrival(
    alloc: Global,
    chip: &Chip,
    circuit: &Circuit,
    delays: &Delays,
    numbering: &Numbering,
    at: &[u64],
    point: Point,
) -> Result<u64, NoMemory>
    requires circuit { IsCircuitOf chip.now circuit.now.configuration circuit.now }
    requires points { AreAllPoints chip.now numbering.now }
    requires point { Has numbering.now point }
    requires long { length at.now ≡ length numbering.now }
    requires within { AreWithin (2 ^ 63) at.now }
    ensures reached { IfOk result (IsReached chip.now (bits_of circuit.now.configuration)
        circuit.now.configuration.extras delays.now numbering.now at.now point) }
    ensures soon { IfOk result (IsSoon at.now) }
{
    match latest_read(alloc, chip, circuit, numbering, at, point)? {
        None => Ok(u64::from(start_of(chip, circuit, delays, point))),
        Some(number) => Ok(at[number] + u64::from(delay_of(chip, circuit, delays, point))),
    }
}

// So many points at which no signal is yet.
fn nowhere(alloc: Global, count: usize) -> Result<Vec<u64>, NoMemory>
    ensures { IfOk result (λ at. at.items ≡ replicate count 0) }
{
    Ok(vec![in alloc; 0u64; count]?)
}

// Notes when a signal is at the point of a number.
fn set_moment(at: &mut Vec<u64>, number: usize, moment: u64)
    requires { number < length at.old.items }
    ensures { at.new.items ≡ slice_set at.old.items number moment }
{
    at[number] = moment;
}

// The arrivals at all points, one after another in an order of evaluation.
fn moments(
    alloc: Global,
    chip: &Chip,
    circuit: &Circuit,
    delays: &Delays,
    numbering: &Numbering,
    order: &[Point],
) -> Result<Vec<u64>, NoMemory>
    requires circuit { IsCircuitOf chip.now circuit.now.configuration circuit.now }
    requires points { AreAllPoints chip.now numbering.now }
    requires order { order.now ≡ circuit.now.order }
    ensures filled { IfOk result (λ at.
        AreFilled chip.now (bits_of circuit.now.configuration) circuit.now.configuration.extras
        delays.now numbering.now order.now (length order.now) at.items) }
    ensures within { IfOk result (λ at. AreWithin (2 ^ 63) at.items) }
{
    if order.len() >= MOST_POINTS {
        return Err(NoMemory);
    }
    let mut at = nowhere(alloc, numbering.points().len())?;
    for point in order {
        let moment = arrival(alloc, chip, circuit, delays, numbering, &at, *point)?;
        let number = numbering.number(*point);
        set_moment(&mut at, number, moment);
    }
    Ok(at)
}

/// When a signal arrives at each point of a circuit: the greatest length of a path to it.
///
/// # Errors
/// Want of memory alone; 2^31 points or more count as that.
pub fn arrivals_of(
    alloc: Global,
    chip: &Chip,
    circuit: &Circuit,
    delays: &Delays,
) -> Result<Arrivals, NoMemory>
    requires { IsCircuitOf chip.now circuit.now.configuration circuit.now }
    ensures { IfOk result (AreArrivalsOf chip.now (bits_of circuit.now.configuration)
        circuit.now.configuration.extras delays.now) }
{
    let numbering = Numbering::new(alloc, chip)?;
    let at = moments(alloc, chip, circuit, delays, &numbering, circuit.order())?;
    Ok(Arrivals { numbering, at })
}

impl Arrivals {
    /// When the signal is at a point: the greatest length of a path to it, where these are the arrivals of a circuit. It takes no memory.
    pub fn of(&self, point: Point) -> u64
        requires { Has self.now.points point }
        ensures arrives { Arrives self.now point result }
        ensures right { (parts : Parts) (bits : Bits) (extras : List (ℕ × ℕ × ℕ)) (d : DelaysData)
            → AreArrivalsOf parts bits extras d self.now
            → IsArrivalAt parts bits extras d point result }
        ensures within { result ≤ 2 ^ 63 }
    {
        let number = self.numbering.number(point);
        self.at[number]
    }

    /// The latest of the points on which a point depends, or None where it depends on nothing.
    ///
    /// # Errors
    /// Want of memory alone.
    pub(crate) fn before(
        &self,
        alloc: Global,
        chip: &Chip,
        circuit: &Circuit,
        point: Point,
    ) -> Result<Option<Point>, NoMemory>
        requires circuit { IsCircuitOf chip.now circuit.now.configuration circuit.now }
        requires points { AreAllPoints chip.now self.now.points }
        requires point { Has self.now.points point }
        ensures { IfOk result (IsBefore self.now (depends_on chip.now
            (bits_of circuit.now.configuration) circuit.now.configuration.extras point)) }
    {
        let number = latest_read(alloc, chip, circuit, &self.numbering, &self.at, point)?;
        match number {
            None => Ok(None),
            Some(number) => Ok(Some(self.numbering.points()[number])),
        }
    }
}
