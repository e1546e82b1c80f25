//! The laws of prepared netlists, each as the contract of a function that does nothing.
ghost use Rattle.ice_flow_prepare.specs.PreparedLaws.{PreparedAreFew, PreparedAreGivenAlike, PreparedPinsStay, PreparedReportsStay, PreparedShowTheSame};

use ice_carry_tails::laws::tailed_show_the_same;
use ice_check_promote::laws::{promoted_are_formed, promoted_show_the_same};

/// A prepared netlist shows, step by step, what the netlist shows.
pub fn prepared_show_the_same()
    ensures { PreparedShowTheSame }
{
    promoted_are_formed();
    promoted_show_the_same();
    tailed_show_the_same();
}

/// The ports get the pads that they get of the netlist itself, or the same fault.
pub fn prepared_pins_stay()
    ensures { PreparedPinsStay }
{}

/// The report on pins is that of the netlist itself.
pub fn prepared_reports_stay()
    ensures { PreparedReportsStay }
{}

/// Ports get the pads that they get by the design of the netlist itself.
pub fn prepared_are_given_alike()
    ensures { PreparedAreGivenAlike }
{
    promoted_are_formed();
    ice_pads_promote_laws::laws::pads_are_given_alike();
    ice_pads_tails_laws::laws::pads_are_given_alike();
}

/// A prepared netlist has at most 65,534 signals, where the netlist has no more.
pub fn prepared_are_few()
    ensures { PreparedAreFew }
{}
