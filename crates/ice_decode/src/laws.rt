//! Laws of the meaning of bits. The functions do nothing: their contracts are the laws.
ghost use Rattle.ice_decode.specs.Laws.{PointsAreCounted, PointsHaveValues, PointLevelsAreUnique, FaultlessPointsHaveValues, FaultlessWiresAreUncontended, UndrivenWiresHaveNoRowOn, FaultsHaveNoCircuit};

/// There are as many points as wires, and eight for each logic tile.
pub fn points_are_counted()
    ensures { PointsAreCounted }
{}

/// With an order of evaluation each point has a value at each moment.
pub fn points_have_values()
    ensures { PointsHaveValues }
{}

/// Levels of which each is what the point makes of those that it reads are the values.
pub fn point_levels_are_unique()
    ensures { PointLevelsAreUnique }
{}

/// What a chip shows is defined: where bits have no fault each point of the chip has a value at each moment.
pub fn faultless_points_have_values()
    ensures { FaultlessPointsHaveValues }
{}

/// Where bits have no fault no wire of the chip is contended.
pub fn faultless_wires_are_uncontended()
    ensures { FaultlessWiresAreUncontended }
{}

/// The driver of a wire is nothing exactly where no row into the wire is on.
pub fn undriven_wires_have_no_row_on()
    ensures { UndrivenWiresHaveNoRowOn }
{}

/// Bits with a fault have no circuit.
pub fn faults_have_no_circuit()
    ensures { FaultsHaveNoCircuit }
{}
