//! The laws of trees and rounds, each as the contract of a function that does nothing.
ghost use Rattle.ice_negotiate_defs.specs.Leading.{RoundsLead, TreesLead};
ghost use Rattle.ice_negotiate_defs.specs.Trees.{TreesAreUnique};
ghost use Rattle.ice_negotiate_defs.specs.Determined.{OpeningsChangeNoRoute, OpeningsChangeNoVerdict, RoundsAreUnique, RoutedAreReached, RoutedEndFree, OverusedAreReached};

/// In the same prices a net has no two trees.
pub fn trees_are_unique()
    ensures { TreesAreUnique }
{}

/// The tree of a net leads from its root to its sinks, and has no branch that ends elsewhere; so does each tree of every
/// round.
pub fn trees_lead()
    ensures trees { TreesLead }
    ensures rounds { RoundsLead }
{}

/// The rounds of nets are determined by what they begin from: each has one number, one history, one list of nets that move, one route of
/// each net and one count of each wire.
pub fn rounds_are_unique()
    ensures { RoundsAreUnique }
{}

/// Of routes without a shared wire, a sink that can't be reached, and permitted rounds that all end with an overused
/// wire, at most one is there for the same graph, nets and number of permitted rounds.
pub fn answers_exclude_each_other()
    ensures routed_are_reached { RoutedAreReached }
    ensures routed_end_free { RoutedEndFree }
    ensures overused_are_reached { OverusedAreReached }
{}

/// Openings in which nets keep the trees that they have where every wire costs 1 change no route: after each round the routes, the counts and
/// the history are those without one, and so are the verdict and the routes at the end.
pub fn openings_change_no_route()
    ensures routes { OpeningsChangeNoRoute }
    ensures verdict { OpeningsChangeNoVerdict }
{}
