//! The top call: from the words of the program to its status.
ghost use Rattle.std.specs.Prelude.{Some, map, string_bytes};
ghost use Rattle.ice_desk.specs.Changes.{SameTest};
ghost use Rattle.ice_flow_words.specs.Reading.{request_of};
ghost use Rattle.ice_flow_words.specs.Views.{request_view, IsInLimits};
ghost use Rattle.ice_flow.specs.Ends.{IsDoneAs};
ghost use Rattle.ice_flow.specs.Names.{MayUse};
ghost use Rattle.ice_flow.specs.Rows.{HasRows};
ghost use Rattle.ice_flow.specs.Run.{IsAnswer};

use ice_desk::{Desk, Gate};
use ice_flow_back_cmd::back_files;
use ice_flow_build_cmd::build_files;
use ice_flow_frame::{Cause, Done, finish};
use ice_flow_play_bits_cmd::play_bits;
use ice_flow_play_net_cmd::play_net;
use ice_flow_sample_cmd::sample;
use ice_flow_time_cmd::time;
use ice_flow_words::{Request, WordsFault, read_request};
use std::alloc::Global;
use std::thread::Threads;

// Does what was asked for.
fn do_request<D: Desk, G: Gate + Sync, R: Threads + Sync>(
    rt: &R,
    alloc: Global,
    request: &Request<'_>,
    desk: &mut D,
    gate: &G,
) -> Done
    requires limits { IsInLimits request.now }
    requires names { MayUse (D.may_read desk.old) (D.may_write desk.old)
        (Some (request_view request.now)) }
    ensures names_read { SameTest (D.may_read desk.old) (D.may_read desk.new) }
    ensures names_written { SameTest (D.may_write desk.old) (D.may_write desk.new) }
    ensures done { IsDoneAs (request_view request.now) (D.seen desk.old) (D.seen desk.new) result }
{
    match request {
        Request::Build(request) => build_files(rt, alloc, desk, gate, request),
        Request::Back(request) => back_files(alloc, desk, request),
        Request::PlayNet(request) => play_net(alloc, desk, request),
        Request::PlayBits(request) => play_bits(alloc, desk, request),
        Request::Time(request) => time(alloc, desk, request),
        Request::Sample(request) => sample(rt, alloc, desk, gate, request),
    }
}

/// Does what the words after the program's name ask for, and says the line of a refusal on standard output.
///
/// `build CHIP PACKAGE PCF BLIF ASC` reads the texts of a chip database, pin constraints and a netlist, and writes
/// the text of the bits, with `--pins FILE` and `--report FILE` for reports on the pins and on the routes, `--seed N` for the placement
/// (1), `--rounds N` of routing from 1 to 64 (64) by `--workers N` from 1 to 8 (2). `back CHIP PACKAGE ASC BLIF` reads the texts of a chip
/// database and of bits, and writes a netlist of the circuit in them. `play-net BLIF LEVELS` reads the texts of a netlist and of levels,
/// and says what the netlist's ports drive, step by step. `play-bits CHIP PACKAGE ASC LEVELS` reads the texts of a chip database, of bits
/// and of levels, and says what the configured chip drives at the pads of the package, step by step. `time CHIP PACKAGE ASC DELAYS` reads
/// the texts of a chip database, of bits and of delays, and says a longest path of the configured chip. `sample NUMBER` builds the sample
/// netlist of this number on the sample chip, and says how that went.
///
/// The first clause is the answer. The second follows from it: when each status comes, command by command.
#[tactic(auto, using(crate::proofs::RowLaws::done_so, crate::proofs::RowLaws::done_rows_so, crate::proofs::RowLaws::refused_so, crate::proofs::RowLaws::refused_rows_so, crate::proofs::RowLaws::forgotten_so, crate::proofs::RowLaws::forgotten_rows_so, crate::proofs::RowLaws::may_use_asked))]
pub fn run<D: Desk, G: Gate + Sync, R: Threads + Sync>(
    rt: &R,
    alloc: Global,
    words: &[String],
    desk: &mut D,
    gate: &G,
) -> Done
    requires { MayUse (D.may_read desk.old) (D.may_write desk.old)
        (request_of (map string_bytes words.now)) }
    ensures names_read { SameTest (D.may_read desk.old) (D.may_read desk.new) }
    ensures names_written { SameTest (D.may_write desk.old) (D.may_write desk.new) }
    ensures answer { IsAnswer (map string_bytes words.now) (D.seen desk.old)
        (D.seen desk.new) result }
    ensures rows { HasRows (map string_bytes words.now) (D.seen desk.old) (D.seen desk.new) result }
{
    match read_request(alloc, words) {
        Ok(request) => do_request(rt, alloc, &request, desk, gate),
        Err(WordsFault::Usage) => finish(desk, Cause::Usage),
        Err(WordsFault::NoMemory) => finish(desk, Cause::NoMemory),
    }
}
