//! Laws of what a netlist text says. The functions do nothing: their contracts are the laws.
ghost use Rattle.std.specs.Prelude.{◌≡◌, ◌⊎◌, ◌↔◌, Ok, Err};
ghost use Rattle.ice_net.specs.NetlistData.{NetlistData};
ghost use Rattle.ice_blif.specs.declared.fault.BlifFault.{BlifFault};
ghost use Rattle.ice_blif.specs.Grammar.{netlist_of, HasNetlist, IsWithinLimits};
ghost use Rattle.ice_blif.specs.FirstFault.{HasFirstFault};

/// A text is read as a netlist exactly where it has that netlist and the netlist is within the limits; how it grows on
/// the way is of no account. It is read as a fault exactly where that is its first. So a text has a netlist within the
/// limits or a first fault, and never both.
pub fn says_netlist_or_first_fault(text: &[u8])
    ensures netlist { (n : NetlistData)
        → (netlist_of text.now ≡ Ok n ↔ (HasNetlist text.now n × IsWithinLimits text.now n)) }
    ensures fault { (f : BlifFault) → (netlist_of text.now ≡ Err f ↔ HasFirstFault text.now f) }
    ensures one { ((n : NetlistData) × HasNetlist text.now n × IsWithinLimits text.now n)
        ⊎ ((f : BlifFault) × HasFirstFault text.now f) }
    ensures never_both { (n : NetlistData) → (f : BlifFault) → HasNetlist text.now n
        → IsWithinLimits text.now n → HasFirstFault text.now f → ⊥ }
{}
