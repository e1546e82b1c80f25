//! The laws of designs with promoted clocks, each as the contract of a function that does nothing.
ghost use Rattle.ice_pads_promote_laws.specs.PadLaws.{PadsAreGivenAlike, PadsAreWantedAlike};

use ice_check_promote::laws::promoted_are_formed;

/// Ports want of their pads what they want by the design of the netlist without promoted clocks.
pub fn pads_are_wanted_alike()
    ensures { PadsAreWantedAlike }
{
    promoted_are_formed();
}

/// Ports get the pads that they get by the design of the netlist without promoted clocks.
pub fn pads_are_given_alike()
    ensures { PadsAreGivenAlike }
{
    promoted_are_formed();
}
