//! From where to where the nodes of a net stand along one axis.

/// An end of a net.
#[derive(Clone, Copy)]
pub struct Edge {
    /// The place of the outermost nodes.
    pub place: u8,
    /// How many stand there.
    pub nodes: u8,
    /// The place of the outermost nodes but for one of these; where there are none, one that no place lies further inside than.
    pub left: u8,
    /// The place of the outermost nodes but for all of these; where there are none, the same.
    pub next: u8,
}

impl Edge {
    // The place of the outermost nodes once one went from a place.
    fn without_one(self, place: u8) -> u8 {
        if self.place == place {
            self.left
        } else {
            self.place
        }
    }

    // The same once so many went from there.
    fn without(self, place: u8, nodes: u8) -> u8 {
        if self.place == place && self.nodes <= nodes {
            self.next
        } else {
            self.place
        }
    }
}

/// Both ends of a net.
#[derive(Clone, Copy)]
pub struct Extent {
    /// That with the lowest place.
    pub first: Edge,
    /// That with the highest place.
    pub last: Edge,
}

// How many places lie from the first of two to the last, beyond the first.
fn reach(first: u8, last: u8) -> i64 {
    i64::from(last).wrapping_sub(i64::from(first))
}

impl Extent {
    /// How many places lie from end to end, beyond the first.
    pub fn reach(&self) -> i64 {
        reach(self.first.place, self.last.place)
    }

    /// By how much the reach grows where so many nodes go from one place to another.
    pub fn growth(&self, from: u8, to: u8, nodes: u8) -> i64 {
        if from == to {
            return 0;
        }
        let (first, last) = if nodes == 1 {
            (self.first.without_one(from), self.last.without_one(from))
        } else {
            let first = self.first.without(from, nodes);
            (first, self.last.without(from, nodes))
        };
        reach(first.min(to), last.max(to)).wrapping_sub(self.reach())
    }

    /// The first and the last place at which a node stands, but for one that stands at this place; where there is no other, none.
    pub fn ends_without(&self, place: u8) -> Option<(u8, u8)> {
        let first = self.first.without_one(place);
        let last = self.last.without_one(place);
        if first > last {
            return None;
        }
        Some((first, last))
    }
}
