//! The laws of placed designs and of their bits. The functions do nothing: their contracts are the laws.
ghost use Rattle.std.specs.Prelude.{ℕ, ◌+◌, ◌≤◌, List, [], length};
ghost use Rattle.ice_bits.specs.Configuration.{Configuration, bits_of};
ghost use Rattle.ice_negotiate_defs.specs.Trees.{Route};
ghost use Rattle.ice_pcf.specs.declared.constraint.Constraint.{Constraint};
ghost use Rattle.ice_emit_defs.specs.Realised.{Realises};
ghost use Rattle.ice_emit_defs.specs.Written.{IsWritten, wanted_rows};
ghost use Rattle.ice_flow_build.specs.Answers.{net_count};
ghost use Rattle.ice_flow_build.specs.Laid.{IsLaidOut, IsOnSites, StandsOn, plan_in, task_of};
ghost use Rattle.ice_flow_build.specs.Shown.{RealisesNetlist};
ghost use Rattle.ice_flow_build.specs.declared.answer.Layout.{Layout};

use ice_carry_form_laws::laws::{
    designs_are_formed, designs_have_values, designs_read_few, designs_show_the_same,
};
use ice_check::Sound;
use ice_chip::Chip;
use ice_cluster::laws::ranks_give_clusterings;
use ice_emit_meaning_laws::laws::bits_without_rams;
use ice_emit_nets_laws::laws::placed_nets_are_few;
use ice_pads::assigned_pads_fit;
use ice_sites::clusters_stand_on_sites;

/// The design of a sound netlist, whatever the ranks of its cells are and wherever on sites of the chip its clusters are, keeps to its form and has no loop; its clusters stand
/// on those sites, and its ports have pads of the package, with the wires that they need.
pub fn designs_stand_on_their_chip(chip: &Chip, sound: &Sound)
    ensures { (name : List ℕ) (constraints : List Constraint) (layout : Layout)
        → IsOnSites (task_of chip.now name constraints sound.now) layout
        → StandsOn chip.now name 0 layout }
{
    chip.is_chip();
    sound.is_sound();
    designs_are_formed();
    designs_have_values();
    ranks_give_clusterings();
    assigned_pads_fit();
    clusters_stand_on_sites();
}

/// The same of the placed design of a sound netlist.
pub fn layouts_stand_on_their_chip(chip: &Chip, sound: &Sound)
    ensures { (name : List ℕ) (constraints : List Constraint) (layout : Layout)
        → IsLaidOut (task_of chip.now name constraints sound.now) layout
        → StandsOn chip.now name 0 layout }
{
    designs_stand_on_their_chip(chip, sound);
}

/// The placed design of a sound netlist has at most two nets more than the netlist has signals: one of each signal, and those of the two
/// constants. So that of a netlist of at most 65,534 signals has at most 65,536.
pub fn layouts_have_few_nets(chip: &Chip, sound: &Sound)
    ensures { (name : List ℕ) (constraints : List Constraint) (layout : Layout)
        → IsLaidOut (task_of chip.now name constraints sound.now) layout
        → net_count chip.now (plan_in layout) ≤ length sound.now.names + 2 }
{
    chip.is_chip();
    sound.is_sound();
    layouts_stand_on_their_chip(chip, sound);
    designs_read_few();
    placed_nets_are_few();
}

/// The bits of the placed and routed design of a sound netlist are a circuit that shows what the netlist shows, where they realise
/// the design.
pub fn realised_layouts_show_their_netlist(chip: &Chip, sound: &Sound)
    ensures { (name : List ℕ) (constraints : List Constraint) (layout : Layout)
        (routes : List Route) (k : Configuration)
        → IsLaidOut (task_of chip.now name constraints sound.now) layout
        → StandsOn chip.now name 0 layout
        → IsWritten chip.now (plan_in layout) layout.pads.pullups [] routes k
        → Realises chip.now (plan_in layout) [] (wanted_rows chip.now (plan_in layout) routes)
        (bits_of k) k.extras
        → RealisesNetlist sound.now layout.pads.ports chip.now k }
{
    sound.is_sound();
    designs_show_the_same();
    bits_without_rams(chip);
}
