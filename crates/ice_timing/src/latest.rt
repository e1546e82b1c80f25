//! The latest of the points on which a point depends.
ghost use Rattle.std.specs.Prelude.{◌≡◌, ◌⊎◌, ◌<◌, ◌≤◌, [], Some, All, length, map, slice_get, slice_index_or, IfOk, IfNone, IfSome};
ghost use Rattle.ice_bits.specs.Configuration.{bits_of};
ghost use Rattle.ice_base_values.specs.Order.{Has};
ghost use Rattle.ice_decode.specs.Points.{AreAllPoints};
ghost use Rattle.ice_decode.specs.Reads.{depends_on};
ghost use Rattle.ice_decode.specs.Refusals.{IsCircuitOf};
ghost use Rattle.ice_timing.specs.Latest.{IsLatestOf, IsLatest};

use ice_base::NoMemory;
use ice_chip::Chip;
use ice_decode::{Circuit, Numbering, Point, add_reads};
use std::alloc::Global;

// The later of two entries of a table, by their numbers.
fn later(at: &[u64], one: usize, other: usize) -> usize
    requires one { one < length at.now }
    requires other { other < length at.now }
    ensures either { (result ≡ one) ⊎ (result ≡ other) }
    ensures one { slice_index_or at.now one 0 ≤ slice_index_or at.now result 0 }
    ensures other { slice_index_or at.now other 0 ≤ slice_index_or at.now result 0 }
{
    if at[other] > at[one] { other } else { one }
}

// The number of the entry of a table that is the latest of these, if there are any.
fn latest_of(at: &[u64], numbers: &[usize]) -> Option<usize>
    requires { All (λ n. n < length at.now) numbers.now }
    ensures none { IfNone result (numbers.now ≡ []) }
    ensures some { IfSome result (IsLatestOf at.now numbers.now) }
{
    if numbers.is_empty() {
        return None;
    }
    let mut latest = numbers[0];
    for number in numbers {
        latest = later(at, latest, *number);
    }
    Some(latest)
}

// The numbers of the points on which a point depends.
fn numbers_read(
    alloc: Global,
    chip: &Chip,
    circuit: &Circuit,
    numbering: &Numbering,
    point: Point,
) -> Result<Vec<usize>, NoMemory>
    requires circuit { IsCircuitOf chip.now circuit.now.configuration circuit.now }
    requires points { AreAllPoints chip.now numbering.now }
    requires point { Has numbering.now point }
    ensures { IfOk result (λ row.
        map (slice_get numbering.now) row.items ≡ map (λ p. Some p) (depends_on chip.now
        (bits_of circuit.now.configuration) circuit.now.configuration.extras point)) }
{
    chip.is_chip();
    let mut reads = Vec::new(alloc);
    let mut row = Vec::new(alloc);
    add_reads(
        chip,
        circuit.bits(),
        circuit.drivers(),
        circuit.direct(),
        point,
        &mut reads,
    )?;
    numbering.number_all(&reads, &mut row)?;
    Ok(row)
}

/// The number of the latest of the points on which a point depends, by a table of when a signal is at each; None where it depends on
/// nothing.
///
/// # Errors
/// Want of memory alone.
pub(crate) fn latest_read(
    alloc: Global,
    chip: &Chip,
    circuit: &Circuit,
    numbering: &Numbering,
    at: &[u64],
    point: Point,
) -> Result<Option<usize>, NoMemory>
    requires circuit { IsCircuitOf chip.now circuit.now.configuration circuit.now }
    requires points { AreAllPoints chip.now numbering.now }
    requires point { Has numbering.now point }
    requires long { length at.now ≡ length numbering.now }
    ensures { IfOk result (IsLatest numbering.now at.now (depends_on chip.now
        (bits_of circuit.now.configuration) circuit.now.configuration.extras point)) }
{
    let row = numbers_read(alloc, chip, circuit, numbering, point)?;
    Ok(latest_of(at, &row))
}
