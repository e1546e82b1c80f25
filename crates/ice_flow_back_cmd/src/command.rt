//! Going back: two texts are read, and the text of the netlist of the bits is written.
ghost use Rattle.std.specs.Prelude.{◌≡◌, false, true, None};
ghost use Rattle.ice_desk.specs.Changes.{SameTest};
ghost use Rattle.ice_flow_frame.specs.Causes.{status_of};
ghost use Rattle.ice_flow_frame.specs.Commands.{InFiles, IsDone, IsTrueOf};
ghost use Rattle.ice_flow_frame.specs.Reading.{TellsLong};
ghost use Rattle.ice_flow_frame.specs.Rows.{SaidBy, KeptRow, MadeRow, SilentRow};
ghost use Rattle.ice_flow_back_cmd.specs.Asked.{outputs_of};
ghost use Rattle.ice_flow_back_cmd.specs.BackRows.{IsBackAnswer};
ghost use Rattle.ice_flow_back_cmd.specs.Command.{back_files};
ghost use Rattle.ice_flow_back_cmd.specs.Made.{IsMadeByBack};
ghost use Rattle.ice_flow_words.specs.Views.{back_view};

use crate::netlist_text::back_text;
use ice_base::NoMemory;
use ice_chip::{Chip, Package};
use ice_chip_read_laws::pins_are_words;
use ice_decode::Circuit;
use ice_desk::Desk;
use ice_flow_chip_frame::{ChipMaking, write_made_on_chip};
use ice_flow_frame::{Cause, CommandFile, Done, FileRole, Made, Texts, made_text};
use ice_flow_words::BackRequest;
use std::alloc::Global;

// What is made of bits: the text of their netlist, with a port for each pad of the package.
#[derive(Clone, Copy)]
struct GoingBack;

impl ChipMaking for GoingBack {
    ghost rams = { λ going_back. false };

    ghost stands = { λ going_back texts bonded. IsDone };

    ghost gives = { λ going_back. IsMadeByBack };

    fn takes_rams(&self) -> bool {
        false
    }

    fn make(
        &self,
        alloc: Global,
        _texts: &Texts,
        chip: &Chip,
        circuit: &Circuit,
        bonded: &Package,
    ) -> Result<Made, Cause> {
        pins_are_words();
        match back_text(alloc, chip, circuit, bonded) {
            Ok(text) => made_text(alloc, text),
            Err(NoMemory) => Err(Cause::NoMemory),
        }
    }
}

/// Writes the netlist of the bits of one file on the chip of another: reads the texts, makes the text of the netlist, and only then
/// writes it to its file. A refusal says its line, and writes nothing. The chip's file is read piece by piece, and its text isn't held.
///
/// Where it is done and the desk tells its contents, the text that was written says a sound netlist, of any size. It has a port for each
/// pad of the package in order, and for every list of levels it shows there step by step what the configured chip shows at the pads.
pub fn back_files<D: Desk>(alloc: Global, desk: &mut D, request: &BackRequest<'_>) -> Done
    requires chip { D.may_read desk.old request.now.chip.now }
    requires asc { D.may_read desk.old request.now.asc.now }
    requires blif { D.may_write desk.old request.now.blif.now }
    ensures tells { (D.seen desk.new).tells ≡ (D.seen desk.old).tells }
    ensures names_read { SameTest (D.may_read desk.old) (D.may_read desk.new) }
    ensures names_written { SameTest (D.may_write desk.old) (D.may_write desk.new) }
    ensures status { result.status ≡ status_of result.cause }
    ensures cause { IsTrueOf (back_files (back_view request.now)) (D.seen desk.old)
        (D.seen desk.new) result.cause }
    ensures rows { IsBackAnswer (back_view request.now) (D.seen desk.old) (D.seen desk.new) result }
    ensures said { (D.seen desk.old).tells ≡ true
        → SaidBy (InFiles (outputs_of (back_view request.now))) (D.seen desk.old)
        (D.seen desk.new) result.cause }
    ensures kept { (D.seen desk.old).tells ≡ true
        → KeptRow (InFiles (outputs_of (back_view request.now))) None (D.seen desk.old)
        (D.seen desk.new) result.cause }
    ensures made { MadeRow (InFiles (outputs_of (back_view request.now))) None (D.seen desk.old)
        (D.seen desk.new) result.cause }
    ensures silent { SilentRow (InFiles (outputs_of (back_view request.now))) (D.seen desk.old)
        (D.seen desk.new) result.cause }
    ensures given { TellsLong (D.seen desk.new) result.cause }
{
    let files = [CommandFile {
        role: FileRole::Asc,
        name: request.asc,
    }];
    let outputs = [CommandFile {
        role: FileRole::Blif,
        name: request.blif,
    }];
    write_made_on_chip(
        alloc,
        desk,
        request.chip,
        &files,
        request.package_name,
        &GoingBack,
        &outputs,
    )
}
