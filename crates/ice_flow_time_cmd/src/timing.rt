//! Timing bits: three texts are read, and the text of a longest path is said.
ghost use Rattle.std.specs.Prelude.{◌≡◌, true, None, IfOk};
ghost use Rattle.ice_desk.specs.Changes.{SameTest};
ghost use Rattle.ice_flow_frame.specs.Causes.{status_of};
ghost use Rattle.ice_flow_frame.specs.Commands.{Aloud, IsTrueOf};
ghost use Rattle.ice_flow_frame.specs.Reading.{TellsLong};
ghost use Rattle.ice_flow_frame.specs.Rows.{SaidBy, KeptRow};
ghost use Rattle.ice_flow_frame.specs.Texts.{text_at};
ghost use Rattle.ice_bits.specs.Configuration.{bits_of};
ghost use Rattle.ice_decode.specs.Refusals.{IsCircuitOf};
ghost use Rattle.ice_flow_time_cmd.specs.Timings.{delays_cause, DelaysStand, IsLongestText, IsMadeByTime, time};
ghost use Rattle.ice_flow_words.specs.Views.{time_view};

use ice_base::NoMemory;
use ice_chip::{Chip, Package};
use ice_decode::Circuit;
use ice_desk::Desk;
use ice_flow_chip_frame::{ChipMaking, say_made_on_chip};
use ice_flow_frame::{Cause, CommandFile, Done, FileRole, Made, Texts, made_text};
use ice_flow_words::TimeRequest;
use ice_timing::{arrivals_of, longest, path_text};
use ice_timing_delays::{DelayFault, Delays, read_delays};
use std::alloc::Global;

// The refusal of a text of delays.
fn delays_refusal(fault: DelayFault) -> Cause
    ensures { result ≡ delays_cause fault }
{
    match fault {
        DelayFault::BadLine { line } => Cause::BadDelays { line },
    }
}

// The text of a longest path of the circuit.
fn longest_text(
    alloc: Global,
    chip: &Chip,
    circuit: &Circuit,
    delays: &Delays,
) -> Result<Vec<u8>, NoMemory>
    requires { IsCircuitOf chip.now circuit.now.configuration circuit.now }
    ensures { IfOk result (λ text. IsLongestText chip.now (bits_of circuit.now.configuration)
        circuit.now.configuration.extras delays.now text.items) }
{
    let arrivals = arrivals_of(alloc, chip, circuit, delays)?;
    let found = longest(alloc, chip, circuit, delays, &arrivals)?;
    path_text(alloc, &found)
}

// What is timed of bits: a longest path with these delays.
#[derive(Clone, Copy)]
struct Timing;

impl ChipMaking for Timing {
    ghost rams = { λ timing. true };

    ghost stands = { λ timing texts. DelaysStand (text_at texts 3) };

    ghost gives = { λ timing. IsMadeByTime };

    fn takes_rams(&self) -> bool {
        true
    }

    fn make(
        &self,
        alloc: Global,
        texts: &Texts,
        chip: &Chip,
        circuit: &Circuit,
        _bonded: &Package,
    ) -> Result<Made, Cause> {
        let delays = match read_delays(texts.at(2)) {
            Ok(delays) => delays,
            Err(fault) => return Err(delays_refusal(fault)),
        };
        match longest_text(alloc, chip, circuit, &delays) {
            Ok(text) => made_text(alloc, text),
            Err(NoMemory) => Err(Cause::NoMemory),
        }
    }
}

/// Times the bits of one file on the chip of another, with the delays of a third file: says a longest path with when a signal is at each
/// of its points, or the line of a refusal. After a failed say nothing more is said. No file is made. The chip's file is read piece by
/// piece, and its text isn't held.
pub fn time<D: Desk>(alloc: Global, desk: &mut D, request: &TimeRequest<'_>) -> Done
    requires chip { D.may_read desk.old request.now.chip.now }
    requires asc { D.may_read desk.old request.now.asc.now }
    requires delays { D.may_read desk.old request.now.delays.now }
    ensures tells { (D.seen desk.new).tells ≡ (D.seen desk.old).tells }
    ensures names_read { SameTest (D.may_read desk.old) (D.may_read desk.new) }
    ensures names_written { SameTest (D.may_write desk.old) (D.may_write desk.new) }
    ensures status { result.status ≡ status_of result.cause }
    ensures cause { IsTrueOf (time (time_view request.now)) (D.seen desk.old)
        (D.seen desk.new) result.cause }
    ensures said { (D.seen desk.old).tells ≡ true
        → SaidBy Aloud (D.seen desk.old) (D.seen desk.new) result.cause }
    ensures kept { (D.seen desk.old).tells ≡ true
        → KeptRow Aloud None (D.seen desk.old) (D.seen desk.new) result.cause }
    ensures made { (D.seen desk.new).makes ≡ (D.seen desk.old).makes }
    ensures given { TellsLong (D.seen desk.new) result.cause }
{
    let files = [
        CommandFile {
            role: FileRole::Asc,
            name: request.asc,
        },
        CommandFile {
            role: FileRole::Delays,
            name: request.delays,
        },
    ];
    say_made_on_chip(
        alloc,
        desk,
        request.chip,
        &files,
        request.package_name,
        &Timing,
    )
}
