//! The laws of reports, as the contracts of functions that do nothing.
ghost use Rattle.ice_report_laws.specs.Pins.{PinsAreFound};
ghost use Rattle.ice_report_laws.specs.Told.{PricesAreTold};

/// Each pad that is assigned to a port that is seen from outside has a pin of the package, so that the report on pins has a pin for
/// every such port.
pub fn pins_are_found()
    ensures { PinsAreFound }
{}

/// What a wire costs a net in a round follows from what the report says of the rounds: from the number of the round, from the
/// history that its lines give the wire, which is 0 where no line does, and from how many other nets hold the wire in the trees
/// after the round before.
pub fn prices_are_told()
    ensures { PricesAreTold }
{}
