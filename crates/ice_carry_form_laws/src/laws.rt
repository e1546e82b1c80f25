//! The laws of packed designs, each as the contract of a function that does nothing but call laws below.
ghost use Rattle.ice_carry_form_laws.specs.Constants.{DrivenConstantsAreMade};
ghost use Rattle.ice_carry_form_laws.specs.Few.{DesignsReadFew};
ghost use Rattle.ice_carry_form_laws.specs.FormLaws.{DesignsAreFormed, DesignsHaveValues, DesignsShowTheSame, PackedAreBeforeRuns, PackedAreFormed, PackedReadWithin};

use ice_carry_laws::laws::{runs_are_formed, runs_have_values, runs_show_the_same};
use ice_pack_laws::laws::{packed_netlists_have_values, packed_netlists_show_the_same};

/// A packed design without a loop says of each carry once what comes into it, takes no carry into a last input, and reads no
/// carry that is not there.
pub fn packed_are_before_runs()
    ensures { PackedAreBeforeRuns }
{}

/// A packed design reads no pad, no cell and no global buffer that is not there.
pub fn packed_read_within()
    ensures { PackedReadWithin }
{}

/// Where an enable is constant 0, or a constant 1 stands at a sink that would read 0, the packed design has the cell that drives it.
pub fn driven_constants_are_made()
    ensures { DrivenConstantsAreMade }
{}

/// In the packed design of a sound netlist pads stand in the order of ports and tell whether they are read, and a flip-flop that
/// is neither set nor reset has nothing there.
pub fn packed_are_formed()
    ensures { PackedAreFormed }
{}

/// The design of a sound netlist, its runs made, keeps to what clusters, pads and bits ask of designs.
pub fn designs_are_formed()
    ensures { DesignsAreFormed }
{
    packed_netlists_have_values();
    runs_are_formed();
}

/// The design of a sound netlist, its runs made, reads at most two roots more than the netlist has signals: one of each signal, and the
/// cells of the two constants. A look-up table that only a flip-flop reads has none of its own, unless the flip-flop moves to a cell of its own.
pub fn designs_read_few()
    ensures { DesignsReadFew }
{
    packed_netlists_have_values();
}

/// Each node of the design of a sound netlist, its runs made, has a value.
pub fn designs_have_values()
    ensures { DesignsHaveValues }
{
    packed_netlists_have_values();
    runs_have_values();
}

/// The design of a sound netlist, its runs made, shows step by step what the netlist shows.
pub fn designs_show_the_same()
    ensures { DesignsShowTheSame }
{
    packed_netlists_have_values();
    packed_netlists_show_the_same();
    runs_show_the_same();
}
