//! The laws of designs in which the ends of carry chains stand in their runs, each as the contract of a function that does nothing.
ghost use Rattle.ice_pads_tails_laws.specs.PadLaws.{TailedPadsAreGivenAlike, TailedPadsAreWantedAlike};

use ice_carry_tails::laws::tailed_are_formed;

/// Ports want of their pads what they want by the design of the netlist itself.
pub fn pads_are_wanted_alike()
    ensures { TailedPadsAreWantedAlike }
{
    tailed_are_formed();
}

/// Ports get the pads that they get by the design of the netlist itself.
pub fn pads_are_given_alike()
    ensures { TailedPadsAreGivenAlike }
{
    tailed_are_formed();
}
