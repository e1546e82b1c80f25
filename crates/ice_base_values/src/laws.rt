//! The laws of values, orders and machines, each as the contract of a function that does nothing. A type of points is
//! written `P`, and a type of values `A`.
ghost use Rattle.ice_base_values.specs.Laws.{MoreStepsKeepValues, OrderedPointsHaveValues, ValuesAreUnique, PointsAndOneAreEnough, CyclesHaveNoValue, OrdersHaveNoCycle, BareInputsReadBare, SimulationsShowTheSame};

/// More steps change no value that is there.
pub fn more_steps_keep_values<P, A>()
    ensures { MoreStepsKeepValues P A }
{}

/// With an order of all points each has a value.
pub fn ordered_points_have_values<A>()
    ensures { OrderedPointsHaveValues A }
{}

/// With an order of all points, an assignment that meets the equation of each point is the value.
pub fn values_are_unique<A>()
    ensures { ValuesAreUnique A }
{}

/// As many steps as there are points, and one more, are enough, where any number is.
pub fn points_and_one_are_enough<P, A>()
    ensures { PointsAndOneAreEnough P A }
{}

/// No point of a cycle has a value.
pub fn cycles_have_no_value<P, A>()
    ensures { CyclesHaveNoValue P A }
{}

/// Points that have an order have no cycle.
pub fn orders_have_no_cycle()
    ensures { OrdersHaveNoCycle }
{}

/// An input that is connected to nothing reads the one value that stands for it.
pub fn bare_inputs_read_bare<P, A>()
    ensures { BareInputsReadBare P A }
{}

/// Two machines show the same where one simulates the other.
pub fn simulations_show_the_same<S, T, L, O>()
    ensures { SimulationsShowTheSame S T L O }
{}
