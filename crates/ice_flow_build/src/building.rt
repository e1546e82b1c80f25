//! From a netlist to the bits of a chip.
ghost use Rattle.std.specs.Prelude.{IfOk, IfErr};
ghost use Rattle.ice_flow_build.specs.Answers.{IsBuilt, IsComplete, IsFault};
ghost use Rattle.ice_flow_build.specs.Laid.{task_of};
ghost use Rattle.ice_flow_build.specs.Shown.{RealisesNetlist};
ghost use Rattle.ice_flow_build.specs.Stages.{IsPermitted};

use crate::answer::{BuildFault, Built, Effort};
use crate::checking::check_loops;
use crate::laws::{
    layouts_have_few_nets, layouts_stand_on_their_chip, realised_layouts_show_their_netlist,
};
use crate::laying::lay_out;
use crate::routing::{finish, nets_by_signals};
use ice_base::NoMemory;
use ice_bits_rows::Index;
use ice_check::Sound;
use ice_chip::Chip;
use ice_desk::Gate;
use ice_pcf::Pcf;
use std::alloc::Global;
use std::thread::Threads;

// Builds a netlist on an indexed chip, as `build` does.
fn build_by<G: Gate + Sync, R: Threads + Sync>(
    rt: &R,
    alloc: Global,
    index: &Index<'_>,
    name: &[u8],
    pcf: &Pcf,
    sound: &Sound,
    effort: Effort,
    gate: &G,
) -> Result<Built, BuildFault>
    requires effort { IsPermitted effort }
    ensures built { IfOk result
        (IsBuilt (task_of index.now.chip.now name.now pcf.now sound.now) effort) }
    ensures circuit { IfOk result (λ built.
        RealisesNetlist sound.now built.layout.pads.ports index.now.chip.now built.bits) }
    ensures fault { IfErr result
        (IsFault (task_of index.now.chip.now name.now pcf.now sound.now) effort) }
    ensures complete { IsComplete (task_of index.now.chip.now name.now pcf.now sound.now) result }
{
    layouts_stand_on_their_chip(index.chip, sound);
    layouts_have_few_nets(index.chip, sound);
    realised_layouts_show_their_netlist(index.chip, sound);
    let layout = lay_out(alloc, index, name, pcf, sound, effort.seed)?;
    let nets = nets_by_signals(alloc, index.chip, &layout, sound.netlist().signals())?;
    let built = finish(rt, alloc, index, layout, nets, effort, gate)?;
    match check_loops(alloc, index.chip, &built.bits) {
        Ok(()) => Ok(built),
        Err(fault) => {
            drop(built);
            Err(fault)
        }
    }
}

/// Builds a netlist on a chip, in the package of that name: the bits, with the placed design and its trees. The netlist is packed, the
/// runs of its carries are made, its cells are put into clusters, its ports get pads, its clusters get places, first by first fit and
/// then improved from a seed; its nets are routed over the usable rows of the chip in at most so many rounds, from 1 to 64, by 1 to 8
/// workers, each in a thread, on whom nothing depends unless they open the rounds; and the bits of all that are set, and no others.
///
/// The bits are a circuit without a fault, which for every list of levels shows at the ports' pads, step by step, what the netlist
/// shows, and drives no other pad. On a chip on which a global is fed by a global the decoder is asked for it.
///
/// # Errors
/// In this order: the fault of the pins exactly where `assign` has one; that of the places exactly where the first placement has one;
/// the first sink to which no walk leads, and permitted rounds that all end with an overused wire, each with the placed design of
/// which it is true; the decoder's fault of the bits, only where globals of the chip feed each other in a ring. Want of memory may come
/// at any time; of a netlist of more than 65,534 signals, more than 65,536 nets count as such.
pub fn build<G: Gate + Sync, R: Threads + Sync>(
    rt: &R,
    alloc: Global,
    chip: &Chip,
    name: &[u8],
    pcf: &Pcf,
    sound: &Sound,
    effort: Effort,
    gate: &G,
) -> Result<Built, BuildFault>
    requires { IsPermitted effort }
    ensures built { IfOk result (IsBuilt (task_of chip.now name.now pcf.now sound.now) effort) }
    ensures circuit { IfOk result (λ built.
        RealisesNetlist sound.now built.layout.pads.ports chip.now built.bits) }
    ensures fault { IfErr result (IsFault (task_of chip.now name.now pcf.now sound.now) effort) }
    ensures complete { IsComplete (task_of chip.now name.now pcf.now sound.now) result }
{
    match Index::new(alloc, chip) {
        Ok(index) => build_by(rt, alloc, &index, name, pcf, sound, effort, gate),
        Err(NoMemory) => Err(BuildFault::NoMemory),
    }
}
