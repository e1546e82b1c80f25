//! The laws of clusters, each as the contract of a function that does nothing.
ghost use Rattle.ice_cluster.specs.Chunks.{RunsStandInChunks};
ghost use Rattle.ice_cluster.specs.Orders.{OneRankKeepsTheOrder, OrdersHaveTheSameChunks, OrdersNeedAsMany, RanksGiveClusterings};
ghost use Rattle.ice_cluster.specs.Slots.{CellsStandInOneSlot, FlopsAreDrivenAsTheirCluster};

/// Each chunk of eight of a run has a cluster of its own, in which its cells stand from the first slot on.
pub fn runs_stand_in_chunks()
    ensures { RunsStandInChunks }
{}

/// Each cluster has eight slots, and each cell of a design stands in exactly one.
pub fn cells_stand_in_one_slot()
    ensures { CellsStandInOneSlot }
{}

/// Each flip-flop of a cluster is driven as the cluster says, so that no two control sets stand in one tile.
pub fn flops_are_driven_as_their_cluster()
    ensures { FlopsAreDrivenAsTheirCluster }
{}

/// Whatever the ranks are, the clusters by them have the cells that stand in no run in some order.
pub fn ranks_give_clusterings()
    ensures { RanksGiveClusterings }
{}

/// Where all cells have one rank, the clusters by ranks are those in the order of the design.
pub fn one_rank_keeps_the_order()
    ensures { OneRankKeepsTheOrder }
{}

/// In each order there are as many clusters as the design needs.
pub fn orders_need_as_many()
    ensures { OrdersNeedAsMany }
{}

/// In each order the same clusters are chunks of runs.
pub fn orders_have_the_same_chunks()
    ensures { OrdersHaveTheSameChunks }
{}
