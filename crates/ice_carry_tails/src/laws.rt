//! The laws of carries that are added at look-up tables, each as the contract of a function that does nothing.
ghost use Rattle.ice_carry_tails.specs.TailLaws.{TailsAreFormed, TailsAreSound, TailsShowTheSame};
ghost use Rattle.ice_carry_tails.specs.TailedLaws.{TailedAreFormed, TailedAreSound, TailedKeepPorts, TailedShowTheSame};

/// A netlist with added carries is well formed.
pub fn tails_are_formed()
    ensures { TailsAreFormed }
{}

/// A sound netlist stays sound.
pub fn tails_are_sound()
    ensures { TailsAreSound }
{}

/// A netlist with added carries shows, step by step, what it showed before.
pub fn tails_show_the_same()
    ensures { TailsShowTheSame }
{}

/// A netlist in which the ends of carry chains stand in their runs is well formed.
pub fn tailed_are_formed()
    ensures { TailedAreFormed }
{
    tails_are_formed();
}

/// It is sound where the netlist is.
pub fn tailed_are_sound()
    ensures { TailedAreSound }
{
    tails_are_sound();
}

/// It shows, step by step, what the netlist shows.
pub fn tailed_show_the_same()
    ensures { TailedShowTheSame }
{
    tails_show_the_same();
}

/// Nothing outside is lost or new: the ports are the same.
pub fn tailed_keep_ports()
    ensures { TailedKeepPorts }
{}
