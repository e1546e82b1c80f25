//! What the definitions come to, each as the contract of a function that does nothing.
ghost use Rattle.ice_sample.specs.Laws.{HasWorkedNumbers, AreAtPlaces};

/// A chip of 14 by 18 has 192 logic tiles, 56 IO tiles, 112 pads and 26,256 wires.
pub fn worked_numbers()
    ensures { HasWorkedNumbers }
{}

/// The places by which groups name the wires of a tile are those at which the wires have these names.
pub fn names_are_at_places()
    ensures { AreAtPlaces }
{}
