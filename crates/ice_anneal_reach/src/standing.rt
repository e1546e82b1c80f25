//! Where the nodes of all nets stand, and by how much the nets grow where nodes change places.

use crate::outline::{NetPlaces, Outline};
use crate::touches::Touch;
use ice_anneal_seats::Place;
use ice_base::NoMemory;
use std::alloc::Global;

// From where to where a net reaches, and in which exchange its nodes were last found among those that come.
#[derive(Clone, Copy)]
struct Seen {
    outline: Outline,
    exchange: u32,
}

/// Where the nodes of nets stand.
#[derive(Drop)]
pub struct Standing {
    places: Vec<NetPlaces>,
    seen: Vec<Seen>,
    // The number of the exchange that is looked at.
    exchange: u32,
    /// By how much all nets have grown.
    pub growth: i64,
}

impl Standing {
    /// Nets whose nodes stand at these places.
    pub fn new(alloc: Global, places: Vec<NetPlaces>) -> Result<Standing, NoMemory> {
        let mut seen = Vec::with_capacity(alloc, places.len())?;
        for own in &places {
            seen.push(Seen {
                outline: own.outline(),
                exchange: 0,
            })?;
        }
        Ok(Standing {
            places,
            seen,
            exchange: 0,
            growth: 0,
        })
    }

    // Begins an exchange, of nodes of these nets that come.
    fn begin(&mut self, coming: &[Touch]) {
        self.exchange = self.exchange.wrapping_add(1);
        for touch in coming {
            if let Some(own) = self.seen.get_mut(touch.net as usize) {
                own.exchange = self.exchange;
            }
        }
    }

    // By how much nets grow of which nodes go from one place to another, and none come. Those of which some come are no longer seen.
    fn growth_of_going(&mut self, going: &[Touch], from: Place, to: Place) -> i64 {
        let before = self.exchange.wrapping_sub(1);
        let mut sum = 0i64;
        for touch in going {
            if let Some(own) = self.seen.get_mut(touch.net as usize) {
                if own.exchange == self.exchange {
                    own.exchange = before;
                } else {
                    sum = sum.wrapping_add(own.outline.growth(from, to, touch.nodes));
                }
            }
        }
        sum
    }

    // By how much nets grow of which nodes come from one place to another, and none go: those that are still seen.
    fn growth_of_coming(&self, coming: &[Touch], from: Place, to: Place) -> i64 {
        let mut sum = 0i64;
        for touch in coming {
            if let Some(own) = self.seen.get(touch.net as usize) {
                if own.exchange == self.exchange {
                    sum = sum.wrapping_add(own.outline.growth(from, to, touch.nodes));
                }
            }
        }
        sum
    }

    /// By how much nets grow where nodes of some go from one place to another, and nodes of others come from there. Each net is once in a list;
    /// one of both does not grow, since it has nodes at both places before and after.
    pub fn growth_of(&mut self, going: &[Touch], coming: &[Touch], from: Place, to: Place) -> i64 {
        self.begin(coming);
        let growth = self.growth_of_going(going, from, to);
        growth.wrapping_add(self.growth_of_coming(coming, to, from))
    }

    /// Two corners of the box of all nodes of a net but one that stands at this place, the lower one first; where there is no other, none.
    pub fn box_without(&self, net: u32, place: Place) -> Option<(Place, Place)> {
        self.seen.get(net as usize)?.outline.box_without(place)
    }

    // Nodes of a net go from one place to another.
    fn shift_net(&mut self, touch: Touch, from: Place, to: Place) {
        let net = touch.net as usize;
        if let Some(places) = self.places.get_mut(net) {
            if let Some(own) = self.seen.get_mut(net) {
                let before = own.outline;
                own.outline = places.shift(from, to, touch.nodes, before);
                let growth = own.outline.length().wrapping_sub(before.length());
                self.growth = self.growth.wrapping_add(growth);
            }
        }
    }

    /// Nodes of nets go from one place to another.
    pub fn shift(&mut self, touches: &[Touch], from: Place, to: Place) {
        for touch in touches {
            self.shift_net(*touch, from, to);
        }
    }
}
