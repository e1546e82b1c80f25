//! Nets by the clusters and tiles in which they have pins.
ghost use Rattle.std.specs.Prelude.{◌≡◌, ◌≤◌, length};
ghost use Rattle.std.specs.List.{All};
ghost use Rattle.ice_place_length.specs.Grown.{box_in};
ghost use Rattle.ice_anneal_board.specs.Length.{tile_of, net_length, IsNode};

use ice_base::TileAt;
use ice_place_length::{half_perimeter, span_at, with_tile};

/// Where a net has a pin: in a cluster, which may move, or in a tile that stays.
#[derive(Clone, Copy)]
pub enum Node {
    /// The cluster of this number.
    Cluster(usize),
    /// This tile.
    Fixed(TileAt),
}

/// A net, by the places of its root and sinks.
#[derive(Drop)]
pub struct NetNodes {
    /// The places.
    pub nodes: Vec<Node>,
}

/// The tile of a node.
pub fn node_tile(at: &[TileAt], node: Node) -> TileAt
    requires { IsNode (length at.now) node }
    ensures { result ≡ tile_of at.now node }
{
    match node {
        Node::Cluster(cluster) => at[cluster],
        Node::Fixed(tile) => tile,
    }
}

/// Half the perimeter of the box of a net's tiles.
pub fn length_of_net(at: &[TileAt], nodes: &[Node]) -> u64
    requires { All (IsNode (length at.now)) nodes.now }
    ensures value { result ≡ net_length at.now nodes.now }
    ensures bound { result ≤ 131070 }
{
    if nodes.is_empty() {
        return 0;
    }
    let mut span = span_at(node_tile(at, nodes[0]));
    for node in &nodes[1..] {
        span = with_tile(span, node_tile(at, *node));
    }
    half_perimeter(span)
}
