//! Lists of nodes.

use ice_anneal_reach::Span;
use ice_anneal_ways::End;

/// The nodes of nets, one net behind the other.
#[derive(Drop)]
pub struct NodeLists {
    /// The nodes of all nets.
    pub nodes: Vec<End>,
    /// Where those of each net stand among them.
    pub spans: Vec<Span>,
}

impl NodeLists {
    /// The nodes of a net.
    pub fn of(&self, net: usize) -> &[End] {
        match self.spans.get(net) {
            Some(span) => self.nodes.get(span.first..span.end).unwrap_or(&[]),
            None => &[],
        }
    }
}
