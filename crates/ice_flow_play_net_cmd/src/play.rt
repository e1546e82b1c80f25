//! Playing a netlist: two texts are read, and the text of drives is said.
ghost use Rattle.std.specs.Prelude.{◌≡◌, true, None};
ghost use Rattle.ice_desk.specs.Changes.{SameTest};
ghost use Rattle.ice_flow_frame.specs.Causes.{status_of};
ghost use Rattle.ice_flow_frame.specs.Commands.{Aloud, IsTrueOf};
ghost use Rattle.ice_flow_frame.specs.Reading.{TellsLong};
ghost use Rattle.ice_flow_frame.specs.Rows.{SaidBy, KeptRow};
ghost use Rattle.ice_flow_play_net_cmd.specs.Played.{StandsForPlayNet, IsMadeByPlayNet, play_net};
ghost use Rattle.ice_flow_words.specs.Views.{net_view};

use ice_base::NoMemory;
use ice_check::check;
use ice_desk::Desk;
use ice_flow_frame::{
    Cause, CommandFile, Done, FileRole, Made, Making, Texts, blif_refusal, made_text, net_refusal,
    say_made,
};
use ice_flow_words::PlayNetRequest;
use ice_ram_read::read_closed_netlist;
use ice_sim_levels::{LevelFault, read_levels};
use ice_sim_rams::play_closed;
use std::alloc::Global;

// What is played of a netlist: what its ports drive.
#[derive(Clone, Copy)]
struct Playing;

impl Making for Playing {
    ghost stands = { λ playing texts cause. StandsForPlayNet texts cause };

    ghost gives = { λ playing texts made arrangement told.
        IsMadeByPlayNet texts made arrangement told };

    fn make(&self, alloc: Global, texts: &Texts) -> Result<Made, Cause> {
        let circuit = match read_closed_netlist(alloc, texts.at(1)) {
            Ok(circuit) => circuit,
            Err(fault) => return Err(blif_refusal(fault)),
        };
        let first = circuit.first();
        let (netlist, mut rams) = circuit.into_parts();
        let sound = match check(alloc, netlist) {
            Ok(sound) => sound,
            Err(fault) => return Err(net_refusal(fault)),
        };
        let levels = match read_levels(alloc, texts.at(2), first) {
            Ok(levels) => levels,
            Err(LevelFault::BadLine { line }) => return Err(Cause::BadLevels { line }),
            Err(LevelFault::NoMemory) => return Err(Cause::NoMemory),
        };
        match play_closed(alloc, &sound, first, &mut rams, &levels) {
            Ok(text) => made_text(alloc, text),
            Err(NoMemory) => Err(Cause::NoMemory),
        }
    }
}

/// Plays the netlist of one file with the levels of another: says what the ports drive, step by step, or the line of a
/// refusal. After a failed say nothing more is said. No file is made.
pub fn play_net<D: Desk>(alloc: Global, desk: &mut D, request: &PlayNetRequest<'_>) -> Done
    requires blif { D.may_read desk.old request.now.blif.now }
    requires levels { D.may_read desk.old request.now.levels.now }
    ensures tells { (D.seen desk.new).tells ≡ (D.seen desk.old).tells }
    ensures names_read { SameTest (D.may_read desk.old) (D.may_read desk.new) }
    ensures names_written { SameTest (D.may_write desk.old) (D.may_write desk.new) }
    ensures status { result.status ≡ status_of result.cause }
    ensures cause { IsTrueOf (play_net (net_view request.now)) (D.seen desk.old)
        (D.seen desk.new) result.cause }
    ensures said { (D.seen desk.old).tells ≡ true
        → SaidBy Aloud (D.seen desk.old) (D.seen desk.new) result.cause }
    ensures kept { (D.seen desk.old).tells ≡ true
        → KeptRow Aloud None (D.seen desk.old) (D.seen desk.new) result.cause }
    ensures made { (D.seen desk.new).makes ≡ (D.seen desk.old).makes }
    ensures given { TellsLong (D.seen desk.new) result.cause }
{
    let files = [
        CommandFile {
            role: FileRole::Blif,
            name: request.blif,
        },
        CommandFile {
            role: FileRole::Levels,
            name: request.levels,
        },
    ];
    say_made(alloc, desk, &files, &Playing)
}
