//! The sample netlist placed and routed on the sample chip.
ghost use Rattle.std.specs.Prelude.{◌≡◌, [], length, IfOk, IfErr};
ghost use Rattle.ice_flow_frame.specs.Told.{telling, told_in};
ghost use Rattle.ice_flow_frame.specs.Commands.{IsRefusal};
ghost use Rattle.ice_flow_frame.specs.Texts.{text_at};
ghost use Rattle.ice_flow_frame.specs.declared.cause.Cause.TheVariants.{NoMemory as out_of_memory};
ghost use Rattle.ice_flow_build.specs.Answers.{net_count};
ghost use Rattle.ice_flow_build.specs.Laid.{IsLaidOut, arrangement_in, plan_in, task_of};
ghost use Rattle.ice_report.specs.Summary.{summary_text};
ghost use Rattle.ice_flow_sample_cmd.specs.Made.{IsSampled, summary_of};
ghost use Rattle.ice_flow_sample_cmd.specs.Samples.{IsAsked, IsManned, package_name};
ghost use Rattle.ice_flow_sample_cmd.specs.Standing.{TaskStands};

use crate::summing::summary_text;
use crate::texts::SampleTask;
use ice_base::NoMemory;
use ice_bits_rows::Index;
use ice_check::Sound;
use ice_chip::Chip;
use ice_desk::Gate;
use ice_flow_build::laws::layouts_stand_on_their_chip;
use ice_flow_build::{
    Effort, Layout, RoutedLayout, arrangement_of, lay_out, route_layout, tallies_of,
};
use ice_flow_build_frame::cause_of;
use ice_flow_frame::{Cause, Made, one_text};
use ice_flow_words::SampleRequest;
use ice_negotiate_defs::{Kept, Routed};
use ice_pcf::{Pcf, read_pcf};
use std::alloc::Global;
use std::thread::Threads;

// No constraints. An empty text has no fault.
fn no_constraints(alloc: Global) -> Result<Pcf, NoMemory>
    ensures { IfOk result (λ pcf. pcf ≡ []) }
{
    match read_pcf(alloc, b"") {
        Ok(pcf) => Ok(pcf),
        Err(_) => Err(NoMemory),
    }
}

// What is made of a placed and routed design: the text of its summary.
fn made_of(
    alloc: Global,
    text: Vec<u8>,
    layout: Layout,
    kept: Vec<Kept>,
    routed: Routed,
) -> Result<Made, Cause>
    ensures text { IfOk result (λ made. text_at made.texts 1 ≡ text.items) }
    ensures arrangement { IfOk result (λ made. made.arrangement ≡ arrangement_in layout) }
    ensures told { IfOk result (λ made. told_in made ≡ telling routed.tallies kept) }
    ensures stop { IfErr result (λ cause. cause ≡ out_of_memory) }
{
    let (arrangement, tallies) = (arrangement_of(layout), tallies_of(routed));
    match one_text(alloc, text) {
        Ok(texts) => Ok(Made {
            texts,
            arrangement,
            tallies,
            kept,
        }),
        Err(NoMemory) => Err(Cause::NoMemory),
    }
}

// A placed and routed design summed up.
fn sum_up(alloc: Global, chip: &Chip, number: u64, made: RoutedLayout) -> Result<Made, Cause>
    requires { length made.nets.items ≡ net_count chip.now (plan_in made.layout) }
    ensures text { IfOk result (λ told.
        text_at told.texts 1 ≡ summary_text (summary_of number chip.now made.layout made.routed)) }
    ensures arrangement { IfOk result (λ told. told.arrangement ≡ arrangement_in made.layout) }
    ensures told { IfOk result (λ told. told_in told ≡ telling made.routed.tallies made.kept) }
    ensures stop { IfErr result (λ cause. cause ≡ out_of_memory) }
{
    let RoutedLayout {
        layout,
        nets,
        kept,
        routed,
    } = made;
    match summary_text(alloc, chip, number, &layout, &nets, &routed) {
        Ok(text) => made_of(alloc, text, layout, kept, routed),
        Err(NoMemory) => {
            drop((layout, kept, routed));
            Err(Cause::NoMemory)
        }
    }
}

// What is made of a placed design.
fn route_placed<G: Gate + Sync, R: Threads + Sync>(
    rt: &R,
    alloc: Global,
    gate: &G,
    request: &SampleRequest,
    index: &Index<'_>,
    sound: &Sound,
    layout: Layout,
) -> Result<Made, Cause>
    requires workers { IsManned request.now.workers }
    requires asked { IsAsked request.now.number
        (task_of index.now.chip.now package_name [] sound.now) }
    requires laid { IsLaidOut (task_of index.now.chip.now package_name [] sound.now) layout }
    ensures made { IfOk result (λ made.
        IsSampled request.now.number (text_at made.texts 1) made.arrangement (told_in made)) }
    ensures refused { IfErr result (λ cause.
        IsRefusal (TaskStands (task_of index.now.chip.now package_name [] sound.now)) cause) }
{
    layouts_stand_on_their_chip(index.chip, sound);
    let effort = Effort {
        seed: 1,
        rounds: 64,
        workers: request.workers,
        opening: false,
    };
    match route_layout(rt, alloc, index, layout, effort, gate) {
        Ok(made) => sum_up(alloc, index.chip, request.number, made),
        Err(fault) => Err(cause_of(fault)),
    }
}

// What is made of a netlist on an indexed chip: nothing constrains its ports.
fn route_by<G: Gate + Sync, R: Threads + Sync>(
    rt: &R,
    alloc: Global,
    gate: &G,
    request: &SampleRequest,
    index: &Index<'_>,
    sound: &Sound,
) -> Result<Made, Cause>
    requires workers { IsManned request.now.workers }
    requires asked { IsAsked request.now.number
        (task_of index.now.chip.now package_name [] sound.now) }
    ensures made { IfOk result (λ made.
        IsSampled request.now.number (text_at made.texts 1) made.arrangement (told_in made)) }
    ensures refused { IfErr result (λ cause.
        IsRefusal (TaskStands (task_of index.now.chip.now package_name [] sound.now)) cause) }
{
    let pcf = match no_constraints(alloc) {
        Ok(pcf) => pcf,
        Err(NoMemory) => return Err(Cause::NoMemory),
    };
    match lay_out(alloc, index, b"sample", &pcf, sound, 1) {
        Ok(layout) => route_placed(rt, alloc, gate, request, index, sound, layout),
        Err(fault) => Err(cause_of(fault)),
    }
}

/// What is made of what the sample texts say: the summary of its placement and routes.
///
/// # Errors
/// The fault of the pins, then that of the places; the first sink to which no walk leads, or permitted rounds that all end with an
/// overused wire, each with the arrangement of which it is true; want of memory.
pub fn route_task<G: Gate + Sync, R: Threads + Sync>(
    rt: &R,
    alloc: Global,
    gate: &G,
    request: &SampleRequest,
    task: &SampleTask,
) -> Result<Made, Cause>
    requires workers { IsManned request.now.workers }
    requires asked { IsAsked request.now.number
        (task_of task.now.chip package_name [] task.now.sound) }
    ensures made { IfOk result (λ made.
        IsSampled request.now.number (text_at made.texts 1) made.arrangement (told_in made)) }
    ensures refused { IfErr result (λ cause.
        IsRefusal (TaskStands (task_of task.now.chip package_name [] task.now.sound)) cause) }
{
    let SampleTask { chip, sound } = task;
    match Index::new(alloc, chip) {
        Ok(index) => route_by(rt, alloc, gate, request, &index, sound),
        Err(NoMemory) => Err(Cause::NoMemory),
    }
}
