//! A law of closed netlists. The function does nothing: its contract is the law.
ghost use Rattle.std.specs.Prelude.{◌≡◌, ◌↔◌, [], Ok};
ghost use Rattle.ice_net.specs.NetlistData.{NetlistData};
ghost use Rattle.ice_blif.specs.Grammar.{netlist_of};
ghost use Rattle.ice_ram_read.specs.RamTexts.{rams_of};
ghost use Rattle.ice_ram_read.specs.ClosedNetlists.{without_rams, closed_netlist_of};

/// A text's closed netlist is its netlist and no RAM exactly where none stands in it.
pub fn closed_netlists_without_rams(text: &[u8])
    ensures { (n : NetlistData)
        → (closed_netlist_of text.now ≡ Ok (without_rams n)
        ↔ ((netlist_of text.now ≡ Ok n) × (rams_of n text.now ≡ []))) }
{}
