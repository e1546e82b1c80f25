//! An order in which the points of a chip can be evaluated, or a loop of them.
ghost use Rattle.std.specs.Prelude.{◌≡◌, length, IfOk};
ghost use Rattle.ice_base_values.specs.Order.{IsOrder, IsSimpleCycle};
ghost use Rattle.ice_base_values.specs.Graph.{depends_of};
ghost use Rattle.ice_bits.specs.Configuration.{bits_of};
ghost use Rattle.ice_decode.specs.Tables.{AreDirect};
ghost use Rattle.ice_decode.specs.Reads.{depends_on};
ghost use Rattle.ice_decode.specs.Loops.{wires_among};
ghost use Rattle.ice_decode.specs.Refusals.{AreDrivers};
ghost use Rattle.ice_decode.specs.Points.{AreAllPoints, IsGraphOf};
ghost use Rattle.ice_decode_circuit.specs.Searched.{IsSearched};

use ice_base::NoMemory;
use ice_base_values::{Graph, Outcome, from_least, order};
use ice_bits::Bits;
use ice_chip::Chip;
use ice_decode::{Driver, Numbering, Point, Wires, add_reads};
use std::alloc::Global;

/// What the search for an order of all points finds.
#[derive(Drop)]
pub(crate) enum Found {
    /// Each point once, after all that it depends on.
    Order(Vec<Point>),
    /// The wires of points that depend on one another in a circle.
    Loop(Wires),
}

// The points with what each depends on.
fn graph_of_points(
    alloc: Global,
    chip: &Chip,
    bits: &Bits,
    drivers: &[Driver],
    direct: &[bool],
    numbering: &Numbering,
) -> Result<Graph, NoMemory>
    requires drivers { AreDrivers chip.now (bits_of bits.now) drivers.now }
    requires direct { AreDirect chip.now bits.now.extras direct.now }
    requires points { AreAllPoints chip.now numbering.now }
    ensures { IfOk result
        (IsGraphOf numbering.now (depends_on chip.now (bits_of bits.now) bits.now.extras)) }
{
    chip.is_chip();
    let mut graph = Graph::new(alloc);
    let mut reads = Vec::new(alloc);
    let mut row = Vec::new(alloc);
    for point in numbering.points() {
        reads.clear();
        add_reads(chip, bits, drivers, direct, *point, &mut reads)?;
        numbering.number_all(&reads, &mut row)?;
        graph.push(&row)?;
    }
    Ok(graph)
}

// The wires among some points.
fn wires_among(alloc: Global, points: &[Point]) -> Result<Wires, NoMemory>
    ensures { IfOk result (λ wires. wires ≡ wires_among points.now) }
{
    let mut wires = Vec::new(alloc);
    for point in points {
        if let Point::Wire(wire) = point {
            wires.push(*wire)?;
        }
    }
    Ok(Wires::from_vec(wires))
}

// The points at the numbers of an order of the graph.
fn order_at(
    alloc: Global,
    chip: &Chip,
    bits: &Bits,
    numbering: &Numbering,
    graph: &Graph,
    order: &[usize],
) -> Result<Found, NoMemory>
    requires points { AreAllPoints chip.now numbering.now }
    requires graph { IsGraphOf numbering.now
        (depends_on chip.now (bits_of bits.now) bits.now.extras) graph.now }
    requires order { IsOrder (length graph.now) (depends_of graph.now) order.now }
    ensures { IfOk result (IsSearched chip.now (bits_of bits.now) bits.now.extras) }
{
    let (_chip, _bits, _graph) = (chip, bits, graph);
    let points = numbering.points_at(alloc, order)?;
    Ok(Found::Order(points))
}

// The wires at the numbers of a cycle of the graph, begun at its least number.
fn loop_at(
    alloc: Global,
    chip: &Chip,
    bits: &Bits,
    numbering: &Numbering,
    graph: &Graph,
    cycle: &[usize],
) -> Result<Found, NoMemory>
    requires points { AreAllPoints chip.now numbering.now }
    requires graph { IsGraphOf numbering.now
        (depends_on chip.now (bits_of bits.now) bits.now.extras) graph.now }
    requires cycle { IsSimpleCycle (length graph.now) (depends_of graph.now) cycle.now }
    ensures { IfOk result (IsSearched chip.now (bits_of bits.now) bits.now.extras) }
{
    let (_chip, _bits, _graph) = (chip, bits, graph);
    let cycle = from_least(alloc, cycle)?;
    let points = numbering.points_at(alloc, &cycle)?;
    let wires = wires_among(alloc, &points)?;
    Ok(Found::Loop(wires))
}

// The points in an order of their graph, or else the wires of a loop.
fn found_in(
    alloc: Global,
    chip: &Chip,
    bits: &Bits,
    numbering: &Numbering,
    graph: &Graph,
) -> Result<Found, NoMemory>
    requires points { AreAllPoints chip.now numbering.now }
    requires graph { IsGraphOf numbering.now
        (depends_on chip.now (bits_of bits.now) bits.now.extras) graph.now }
    ensures { IfOk result (IsSearched chip.now (bits_of bits.now) bits.now.extras) }
{
    match order(alloc, graph)? {
        Outcome::Order(order) => order_at(alloc, chip, bits, numbering, graph, &order),
        Outcome::Cycle(cycle) => loop_at(alloc, chip, bits, numbering, graph, &cycle),
    }
}

// What the search finds, by the numbers of the points.
fn search_by(
    alloc: Global,
    chip: &Chip,
    bits: &Bits,
    drivers: &[Driver],
    direct: &[bool],
    numbering: &Numbering,
) -> Result<Found, NoMemory>
    requires drivers { AreDrivers chip.now (bits_of bits.now) drivers.now }
    requires direct { AreDirect chip.now bits.now.extras direct.now }
    requires points { AreAllPoints chip.now numbering.now }
    ensures { IfOk result (IsSearched chip.now (bits_of bits.now) bits.now.extras) }
{
    let graph = graph_of_points(alloc, chip, bits, drivers, direct, numbering)?;
    found_in(alloc, chip, bits, numbering, &graph)
}

/// An order of evaluation of all points of a chip, or else a loop, begun at its point of the least number. The tables have what drives
/// each wire, and which globals have the level of a pad.
///
/// # Errors
/// Want of memory alone.
pub(crate) fn search(
    alloc: Global,
    chip: &Chip,
    bits: &Bits,
    drivers: &[Driver],
    direct: &[bool],
) -> Result<Found, NoMemory>
    requires drivers { AreDrivers chip.now (bits_of bits.now) drivers.now }
    requires direct { AreDirect chip.now bits.now.extras direct.now }
    ensures { IfOk result (IsSearched chip.now (bits_of bits.now) bits.now.extras) }
{
    let numbering = Numbering::new(alloc, chip)?;
    search_by(alloc, chip, bits, drivers, direct, &numbering)
}
