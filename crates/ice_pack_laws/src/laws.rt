//! The laws of packing, each as the contract of a function that does nothing.
ghost use Rattle.ice_pack_laws.specs.PackLaws.{PackedNetlistsHaveValues, PackedNetlistsShowTheSame};

/// Each node of the packed design of a sound netlist has a value.
pub fn packed_netlists_have_values()
    ensures { PackedNetlistsHaveValues }
{}

/// The packed design of a sound netlist shows, step by step, what the netlist shows.
pub fn packed_netlists_show_the_same()
    ensures { PackedNetlistsShowTheSame }
{}
