//! The laws of bounds and of taken paths, each as the contract of a function that does nothing.
ghost use Rattle.ice_path.specs.Bounds.{BoundsFallByPrices, LeastBoundsFallByPrices};
ghost use Rattle.ice_path.specs.Paths.{TakenPathsAreThere, TakenPathsAreUnique, TakenPathsAreCheapest};

/// In a graph whose edges have places, the bound to a wire or to a list of targets falls along each edge by no more
/// than the price of the wire that the edge enters.
pub fn bounds_fall()
    ensures one { BoundsFallByPrices }
    ensures least { LeastBoundsFallByPrices }
{}

/// Where no price is 0, there is a taken path to each list of targets to one of which a walk leads.
pub fn taken_paths_are_there()
    ensures { TakenPathsAreThere }
{}

/// To each list of targets there is no more than one taken path.
pub fn taken_paths_are_unique()
    ensures { TakenPathsAreUnique }
{}

/// A taken path is a walk from the tree to one of the targets, and no walk to any of them costs less.
pub fn taken_paths_are_cheapest()
    ensures { TakenPathsAreCheapest }
{}
