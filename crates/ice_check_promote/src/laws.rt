//! The laws of promoted clocks, each as the contract of a function that does nothing.
ghost use Rattle.ice_check_promote.specs.Promotable.{NamesCanBePromoted};
ghost use Rattle.ice_check_promote.specs.PromotionLaws.{PromotedAreFormed, PromotedAreSound, PromotedKeepPorts, PromotedShowTheSame};

/// Nothing outside is lost or new: the ports are the same.
pub fn promoted_keep_ports()
    ensures { PromotedKeepPorts }
{}

/// A netlist with promoted clocks is well formed.
pub fn promoted_are_formed()
    ensures { PromotedAreFormed }
{}

/// A sound netlist stays sound.
pub fn promoted_are_sound()
    ensures { PromotedAreSound }
{}

/// A netlist with promoted clocks shows, step by step, what it showed before.
pub fn promoted_show_the_same()
    ensures { PromotedShowTheSame }
{}

/// The clocks of a netlist can be promoted where each name is a word or ends otherwise than in `b`.
pub fn netlists_with_such_names_can_be_promoted()
    ensures { NamesCanBePromoted }
{}
