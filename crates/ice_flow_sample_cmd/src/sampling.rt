//! Sampling: the sample texts are made and read, the netlist is placed and routed, and its summary is said.
ghost use Rattle.std.specs.Prelude.{◌≡◌, true, None, IfOk, IfErr};
ghost use Rattle.ice_flow_frame.specs.Told.{told_in};
ghost use Rattle.ice_flow_frame.specs.Causes.{status_of};
ghost use Rattle.ice_flow_frame.specs.Commands.{Aloud, IsRefusal, IsTrueOf};
ghost use Rattle.ice_flow_frame.specs.Rows.{SaidBy, KeptRow};
ghost use Rattle.ice_flow_frame.specs.Texts.{text_at};
ghost use Rattle.ice_desk.specs.Changes.{SameButSaying, SameTest};
ghost use Rattle.ice_flow_sample_cmd.specs.Command.{sample};
ghost use Rattle.ice_flow_sample_cmd.specs.Made.{IsSampled};
ghost use Rattle.ice_flow_words.specs.Views.{sample_view};
ghost use Rattle.ice_flow_sample_cmd.specs.SampleRows.{IsSampleAnswer};
ghost use Rattle.ice_flow_sample_cmd.specs.Samples.{IsManned};
ghost use Rattle.ice_flow_sample_cmd.specs.Standing.{StandsForSample};

use crate::routing::route_task;
use crate::texts::read_sample;
use ice_desk::{Desk, Gate};
use ice_flow_frame::{Cause, Done, Made, end_aloud};
use ice_flow_words::SampleRequest;
use std::alloc::Global;
use std::thread::Threads;

// What is made of the sample texts.
fn make<G: Gate + Sync, R: Threads + Sync>(
    rt: &R,
    alloc: Global,
    gate: &G,
    request: &SampleRequest,
) -> Result<Made, Cause>
    requires { IsManned request.now.workers }
    ensures made { IfOk result (λ made.
        IsSampled request.now.number (text_at made.texts 1) made.arrangement (told_in made)) }
    ensures refused { IfErr result (λ cause. IsRefusal (StandsForSample request.now.number) cause) }
{
    match read_sample(alloc, request.number) {
        Ok(task) => {
            let made = route_task(rt, alloc, gate, request, &task);
            drop(task);
            made
        }
        Err(cause) => Err(cause),
    }
}

/// Places the sample netlist of a number on the sample chip, from the seed 1, and routes it in at most 64 rounds, with 1 to 8 workers, each
/// in a thread, which pass the gate; and says the summary: how many cells, tiles and nets there are, in how many rounds these were
/// routed, and the length of the wires. A refusal says its line. No file is read or made.
///
/// The summary is that of the arrangement and the tallies that are told. Its placement is legal, and no exchange of two clusters and no move
/// of one makes it shorter. The last of its rounds ends without an overused wire, and no earlier one does.
pub fn sample<D: Desk, G: Gate + Sync, R: Threads + Sync>(
    rt: &R,
    alloc: Global,
    desk: &mut D,
    gate: &G,
    request: &SampleRequest,
) -> Done
    requires { IsManned request.now.workers }
    ensures same { SameButSaying (D.seen desk.old) (D.seen desk.new) }
    ensures tells { (D.seen desk.new).tells ≡ (D.seen desk.old).tells }
    ensures names_read { SameTest (D.may_read desk.old) (D.may_read desk.new) }
    ensures names_written { SameTest (D.may_write desk.old) (D.may_write desk.new) }
    ensures status { result.status ≡ status_of result.cause }
    ensures cause { IsTrueOf (sample (sample_view request.now)) (D.seen desk.old)
        (D.seen desk.new) result.cause }
    ensures rows { IsSampleAnswer (sample_view request.now) (D.seen desk.old)
        (D.seen desk.new) result }
    ensures said { (D.seen desk.old).tells ≡ true
        → SaidBy Aloud (D.seen desk.old) (D.seen desk.new) result.cause }
    ensures kept { (D.seen desk.old).tells ≡ true
        → KeptRow Aloud None (D.seen desk.old) (D.seen desk.new) result.cause }
    ensures made { (D.seen desk.new).makes ≡ (D.seen desk.old).makes }
{
    let made = make(rt, alloc, gate, request);
    end_aloud(desk, made)
}
