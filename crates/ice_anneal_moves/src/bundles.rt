//! The nets of clusters, noted now and then.

use crate::nets::CellNets;
use ice_anneal_reach::{Span, Touch, TouchLists};
use ice_anneal_seats::Seats;
use ice_base::NoMemory;
use std::alloc::Global;

/// The nets of each cluster, as its cells were when they were last noted.
#[derive(Drop)]
pub struct Bundles {
    lists: TouchLists,
    // Where in the lists each net was last noted.
    noted: Vec<usize>,
}

impl Bundles {
    /// Nothing is noted of so many clusters, and there is room for the nets of all cells. It fails for want of memory alone.
    pub fn new(alloc: Global, clusters: usize, nets: &CellNets) -> Result<Bundles, NoMemory> {
        let none = Touch { net: 0, nodes: 0 };
        let nowhere = Span { first: 0, end: 0 };
        Ok(Bundles {
            lists: TouchLists {
                touches: vec![in alloc; none; nets.touches()]?,
                spans: vec![in alloc; nowhere; clusters]?,
            },
            noted: vec![in alloc; 0; nets.count()]?,
        })
    }

    /// The nets of what may be a cluster.
    pub fn of(&self, cluster: Option<usize>) -> &[Touch] {
        match cluster {
            Some(cluster) => self.lists.of(cluster),
            None => &[],
        }
    }

    // Whether a net was noted for the cluster whose nets stand here, and then one more node of it.
    fn note_again(&mut self, span: Span, net: u32) -> bool {
        let Some(number) = self.noted.get(net as usize).copied() else {
            return false;
        };
        if number < span.first || number >= span.end {
            return false;
        }
        if let Some(touch) = self.lists.touches.get_mut(number) {
            if touch.net == net {
                touch.nodes = touch.nodes.saturating_add(1);
                return true;
            }
        }
        false
    }

    // Notes one node of a net for the cluster whose nets stand here.
    fn note_net(&mut self, span: Span, net: u32) -> Span {
        if self.note_again(span, net) {
            return span;
        }
        if let Some(touch) = self.lists.touches.get_mut(span.end) {
            *touch = Touch { net, nodes: 1 };
        }
        if let Some(number) = self.noted.get_mut(net as usize) {
            *number = span.end;
        }
        Span {
            first: span.first,
            end: span.end.saturating_add(1),
        }
    }

    // Notes the nets of the cells in these slots, from a number on.
    fn note_cells(&mut self, first: usize, slots: &[Option<usize>], nets: &CellNets) -> Span {
        let mut span = Span { first, end: first };
        for slot in slots {
            if let Some(cell) = *slot {
                for touch in nets.of(cell) {
                    span = self.note_net(span, touch.net);
                }
            }
        }
        span
    }

    /// Notes the nets of all clusters anew.
    pub fn note(&mut self, seats: &Seats, nets: &CellNets) {
        let mut first = 0;
        for cluster in 0..self.lists.spans.len() {
            let span = self.note_cells(first, seats.cells_of(cluster), nets);
            if let Some(own) = self.lists.spans.get_mut(cluster) {
                *own = span;
            }
            first = span.end;
        }
    }
}
