//! Playing bits: three texts are read, and the text of drives is said.
ghost use Rattle.std.specs.Prelude.{◌≡◌, true, None};
ghost use Rattle.ice_desk.specs.Changes.{SameTest};
ghost use Rattle.ice_flow_frame.specs.Causes.{status_of};
ghost use Rattle.ice_flow_frame.specs.Commands.{Aloud, IsTrueOf};
ghost use Rattle.ice_flow_frame.specs.Reading.{TellsLong};
ghost use Rattle.ice_flow_frame.specs.Rows.{SaidBy, KeptRow};
ghost use Rattle.ice_flow_frame.specs.Texts.{text_at};
ghost use Rattle.ice_flow_play_bits_cmd.specs.Played.{LevelsStand, IsMadeByPlayBits, play_bits};
ghost use Rattle.ice_flow_words.specs.Views.{bits_view};

use ice_base::NoMemory;
use ice_chip::{Chip, Package};
use ice_decode::Circuit;
use ice_desk::Desk;
use ice_flow_chip_frame::{ChipMaking, say_made_on_chip};
use ice_flow_frame::{Cause, CommandFile, Done, FileRole, Made, Texts, made_text};
use ice_flow_words::PlayBitsRequest;
use ice_sim_chip_rams::play_chip;
use ice_sim_levels::{LevelFault, read_levels};
use std::alloc::Global;

// What is played of bits: what they drive at the pads of the package.
#[derive(Clone, Copy)]
struct Playing;

impl ChipMaking for Playing {
    ghost rams = { λ playing. true };

    ghost stands = { λ playing texts. LevelsStand (text_at texts 3) };

    ghost gives = { λ playing. IsMadeByPlayBits };

    fn takes_rams(&self) -> bool {
        true
    }

    fn make(
        &self,
        alloc: Global,
        texts: &Texts,
        chip: &Chip,
        circuit: &Circuit,
        bonded: &Package,
    ) -> Result<Made, Cause> {
        let levels = match read_levels(alloc, texts.at(2), bonded.pads.len()) {
            Ok(levels) => levels,
            Err(LevelFault::BadLine { line }) => return Err(Cause::BadLevels { line }),
            Err(LevelFault::NoMemory) => return Err(Cause::NoMemory),
        };
        match play_chip(alloc, chip, circuit, bonded.pads.as_slice(), &levels) {
            Ok(text) => made_text(alloc, text),
            Err(NoMemory) => Err(Cause::NoMemory),
        }
    }
}

/// Plays the bits of one file on the chip of another, with the levels of a third: says what the chip drives at the pads of the
/// package, step by step, or the line of a refusal. After a failed say nothing more is said. No file is made. The chip's file is read piece
/// by piece, and its text isn't held.
pub fn play_bits<D: Desk>(alloc: Global, desk: &mut D, request: &PlayBitsRequest<'_>) -> Done
    requires chip { D.may_read desk.old request.now.chip.now }
    requires asc { D.may_read desk.old request.now.asc.now }
    requires levels { D.may_read desk.old request.now.levels.now }
    ensures tells { (D.seen desk.new).tells ≡ (D.seen desk.old).tells }
    ensures names_read { SameTest (D.may_read desk.old) (D.may_read desk.new) }
    ensures names_written { SameTest (D.may_write desk.old) (D.may_write desk.new) }
    ensures status { result.status ≡ status_of result.cause }
    ensures cause { IsTrueOf (play_bits (bits_view request.now)) (D.seen desk.old)
        (D.seen desk.new) result.cause }
    ensures said { (D.seen desk.old).tells ≡ true
        → SaidBy Aloud (D.seen desk.old) (D.seen desk.new) result.cause }
    ensures kept { (D.seen desk.old).tells ≡ true
        → KeptRow Aloud None (D.seen desk.old) (D.seen desk.new) result.cause }
    ensures made { (D.seen desk.new).makes ≡ (D.seen desk.old).makes }
    ensures given { TellsLong (D.seen desk.new) result.cause }
{
    let files = [
        CommandFile {
            role: FileRole::Asc,
            name: request.asc,
        },
        CommandFile {
            role: FileRole::Levels,
            name: request.levels,
        },
    ];
    say_made_on_chip(
        alloc,
        desk,
        request.chip,
        &files,
        request.package_name,
        &Playing,
    )
}
