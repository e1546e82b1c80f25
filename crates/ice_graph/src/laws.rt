//! The law of least rows, as the contract of a function that does nothing.
ghost use Rattle.ice_graph.specs.Hops.{HopsAreLeast};

/// A walk from a wire to one of the targets has at least as many rows as their column says of the wire; where it says that
/// none leads there, there is none.
pub fn hops_are_least()
    ensures { HopsAreLeast }
{}
