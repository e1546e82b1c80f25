//! Clusters in the order of ranks.
ghost use Rattle.std.specs.Prelude.{◌≡◌, [], IfOk};
ghost use Rattle.ice_cells.specs.Clusters.{clusters_of};
ghost use Rattle.ice_cells.specs.Ranks.{clusters_by};
ghost use Rattle.ice_place.specs.Place.{chunks_of};

use ice_base::NoMemory;
use ice_cells::{Clusters, Design, Items};
use ice_cluster::cluster_by;
use ice_cluster::laws::{one_rank_keeps_the_order, orders_have_the_same_chunks};
use std::alloc::Global;

/// The clusters of a design, and the ranks of its cells by which they stand.
#[derive(Drop)]
pub struct Ordered {
    /// The rank of each cell, by which it stands among those of its kind; no ranks where they stand as the design has them.
    pub ranks: Items<u32>,
    /// The clusters by these ranks.
    pub clusters: Clusters,
}

// No ranks.
fn no_ranks(alloc: Global) -> Items<u32>
    ensures { result ≡ [] }
{
    Items::from_vec(Vec::new(alloc))
}

/// The clusters in the order of the design, by no ranks. It takes no memory.
pub fn in_own_order(alloc: Global, design: &Design, clusters: Clusters) -> Ordered
    requires { clusters ≡ clusters_of design.now }
    ensures by_ranks { result.clusters ≡ clusters_by result.ranks design.now }
    ensures same { result.clusters ≡ clusters }
{
    one_rank_keeps_the_order();
    let ranks = no_ranks(alloc);
    Ordered { ranks, clusters }
}

/// The clusters by these ranks, of which the same are chunks of runs. It fails for want of memory alone.
pub fn by_ranks(
    alloc: Global,
    design: &Design,
    clusters: &Clusters,
    ranks: Items<u32>,
) -> Result<Ordered, NoMemory>
    requires { clusters.now ≡ clusters_of design.now }
    ensures ranks { IfOk result (λ made. made.clusters ≡ clusters_by made.ranks design.now) }
    ensures chunks { IfOk result (λ made.
        chunks_of made.clusters.list ≡ chunks_of clusters.now.list) }
{
    orders_have_the_same_chunks();
    let others = cluster_by(alloc, design, ranks.as_slice())?;
    Ok(Ordered {
        ranks,
        clusters: others,
    })
}
