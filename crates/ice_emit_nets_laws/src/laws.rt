//! The laws of nets of placed designs. The functions do nothing: their contracts are the laws.
ghost use Rattle.ice_emit_nets_laws.specs.Few.{PlacedNetsAreFew};
ghost use Rattle.ice_emit_nets_laws.specs.Routing.{RoutedNetsAreTrees};
ghost use Rattle.ice_emit_nets_laws.specs.Routable.{PlacedNetsAreRoutable};

use ice_chip::wire_names_are_read;
use ice_chip_laws::lookups_are_lawful;
use ice_cluster::laws::{cells_stand_in_one_slot, runs_stand_in_chunks};

/// Where the nets of a placed design are routed on the graph of a chip's usable rows, also from an opening of trees that lead, each has a tree: it leads from the net's
/// root to one target of each of its sinks, over usable rows and on wires of the chip. No wire is in two trees.
pub fn routed_nets_are_trees()
    ensures { RoutedNetsAreTrees }
{}

/// The nets of a placed design meet what routing asks of nets: roots and targets are wires of the chip, and each sink has a
/// target, since each pin that reads a root stands at a pad, a site or a global with the wire.
pub fn placed_nets_are_routable()
    ensures { PlacedNetsAreRoutable }
{
    wire_names_are_read();
    lookups_are_lawful();
    cells_stand_in_one_slot();
    runs_stand_in_chunks();
}

/// A placed design has no more nets than a list has roots in which all that the design reads stand: each net has a root of its own,
/// which something reads.
pub fn placed_nets_are_few()
    ensures { PlacedNetsAreFew }
{
    wire_names_are_read();
    lookups_are_lawful();
    cells_stand_in_one_slot();
    runs_stand_in_chunks();
}
