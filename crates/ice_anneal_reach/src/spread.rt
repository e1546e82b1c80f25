//! Where the nodes of a net stand along one axis.
ghost use Rattle.std.specs.Prelude.{◌<◌};

use crate::extent::{Edge, Extent};

/// How many nodes of a net stand at each place, up to 255, and at which places any does, one bit for each.
#[derive(Clone, Copy)]
pub struct Spread {
    taken: u64,
    counts: [u8; 64],
}

// The number of a place.
fn number_of(place: u8) -> usize
    ensures { result < 64 }
{
    usize::from(place % 64)
}

// The bit of a place.
fn bit_of(place: u8) -> u64 {
    1 << (place % 64)
}

// The lowest of these places; where there are none, the highest of all.
fn lowest(taken: u64) -> u8 {
    taken.trailing_zeros().min(63) as u8
}

// The highest of these places; where there are none, the lowest of all.
fn highest(taken: u64) -> u8 {
    let place = 63u32.saturating_sub(taken.leading_zeros());
    place as u8
}

impl Spread {
    /// Nothing stands anywhere.
    pub fn empty() -> Spread {
        Spread {
            taken: 0,
            counts: [0; 64],
        }
    }

    // How many nodes stand at a place.
    fn count_at(&self, place: u8) -> u8 {
        self.counts[number_of(place)]
    }

    // The end of the net at a place, where the next place of nodes is this one.
    fn edge_at(&self, place: u8, next: u8) -> Edge {
        let nodes = self.count_at(place);
        let left = if nodes > 1 { place } else { next };
        Edge {
            place,
            nodes,
            left,
            next,
        }
    }

    /// Where the outermost nodes stand.
    pub fn extent(&self) -> Extent {
        let (first, last) = (lowest(self.taken), highest(self.taken));
        Extent {
            first: self.edge_at(first, lowest(self.taken & !bit_of(first))),
            last: self.edge_at(last, highest(self.taken & !bit_of(last))),
        }
    }

    // So many nodes go from a place.
    fn leave(&mut self, place: u8, nodes: u8) {
        let left = self.count_at(place).saturating_sub(nodes);
        self.counts[number_of(place)] = left;
        if left == 0 {
            self.taken &= !bit_of(place);
        }
    }

    /// So many more nodes stand at a place.
    pub fn add(&mut self, place: u8, nodes: u8) {
        let count = self.count_at(place).saturating_add(nodes);
        self.counts[number_of(place)] = count;
        self.taken |= bit_of(place);
    }

    /// So many nodes go from one place to another.
    pub fn shift(&mut self, from: u8, to: u8, nodes: u8) {
        self.leave(from, nodes);
        self.add(to, nodes);
    }
}
