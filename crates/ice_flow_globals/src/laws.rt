//! What promoted clocks leave as it is: the pads of the ports, and the report on them. The functions do nothing: their contracts are
//! the laws.
ghost use Rattle.ice_flow_globals.specs.Pins.{PinsStay, PinReportsStay};

/// The ports get the pads that they get of the netlist without promoted clocks, or the same fault.
pub fn pins_stay()
    ensures { PinsStay }
{}

/// The report on pins is that of the netlist without promoted clocks.
pub fn pin_reports_stay()
    ensures { PinReportsStay }
{}
