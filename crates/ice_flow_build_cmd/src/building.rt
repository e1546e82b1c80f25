//! Building: three texts are read, the netlist is built, and the text of its bits is written, with the reports that are asked for.
ghost use Rattle.std.specs.Prelude.{◌≡◌, ◌<◌, ◌⊎◌, ◌∷◌, ℕ, List, length, true, Ok, IfOk, IfErr};
ghost use Rattle.ice_pads.specs.declared.fault.PinFault.TheVariants.{TooManyRams};
ghost use Rattle.ice_flow_frame.specs.declared.cause.Cause.TheVariants.{BadPin, NoMemory as out_of_memory};
ghost use Rattle.ice_flow_frame.specs.Causes.{status_of};
ghost use Rattle.ice_flow_frame.specs.Commands.{InFiles, IsTrueOf};
ghost use Rattle.ice_flow_frame.specs.Ends.{IsEndInFiles, IsMadeOf, IsReported, IsToldLong, unreported};
ghost use Rattle.ice_flow_frame.specs.Reading.{TellsLong};
ghost use Rattle.ice_flow_frame.specs.Rows.{SaidBy, KeptRow, MadeRow, SilentRow, PartingRow};
ghost use Rattle.ice_flow_frame.specs.Told.{told_in};
ghost use Rattle.ice_flow_frame.specs.Texts.{text_at, ArePermitted};
ghost use Rattle.ice_blif.specs.Grammar.{IsWithinLimits};
ghost use Rattle.ice_chip.specs.Database.{Parts};
ghost use Rattle.ice_ram_read.specs.ClosedNetlists.{closed_netlist_of, without_rams};
ghost use Rattle.ice_flow_build.specs.Laid.{task_of};
ghost use Rattle.ice_flow_build.specs.Stages.{IsPermitted};
ghost use Rattle.ice_check.specs.Sound.{IsSound};
ghost use Rattle.ice_chip_read_pieces.specs.Stands.{StandsFor};
ghost use Rattle.ice_desk.specs.Changes.{SameButReading, SameTest};
ghost use Rattle.ice_net.specs.Formed.{IsFormed};
ghost use Rattle.ice_flow_prepare.specs.Prepared.{CanBePrepared, most_cells};
ghost use Rattle.ice_pcf.specs.declared.constraint.Constraint.{Constraint};
ghost use Rattle.ice_flow_build_cmd.specs.Asked.{Build, IsTaskRead, effort_of, outputs_of, parting_of};
ghost use Rattle.ice_flow_build_cmd.specs.BuildRows.{IsRead, IsBuildAnswer};
ghost use Rattle.ice_flow_build_cmd.specs.Command.{build_files};
ghost use Rattle.ice_flow_build_cmd.specs.Headline.{HeadlineRow};
ghost use Rattle.ice_flow_build_cmd.specs.Made.{IsMadeByBuild};
ghost use Rattle.ice_flow_build_cmd.specs.Parting.{IsReadRefusal, IsRefusedWith};
ghost use Rattle.ice_flow_words.specs.Views.{build_view};

use crate::ending::{build_refusal, made_of, without_report};
use crate::files::{outputs, parting};
use ice_base::{NoMemory, to_u32};
use ice_blif_laws::read_names_are_known;
use ice_check::{Sound, check};
use ice_chip::Chip;
use ice_chip_read_pieces::ChipReader;
use ice_desk::{Desk, Gate};
use ice_flow_build::{Effort, build};
use ice_flow_chip_frame::{ChipTexts, read_chip_and_texts};
use ice_flow_frame::{
    Cause, CommandFile, Done, FileRole, Made, Refused, Texts, blif_refusal, chip_refusal,
    end_in_files, net_refusal, pcf_refusal,
};
use ice_flow_prepare::laws::{
    prepared_are_given_alike, prepared_pins_stay, prepared_reports_stay, prepared_show_the_same,
};
use ice_flow_prepare::prepare;
use ice_flow_words::BuildRequest;
use ice_pads::PinFault;
use ice_pcf::{Pcf, read_pcf};
use ice_ram_read::read_closed_netlist;
use std::alloc::Global;
use std::mem;
use std::thread::Threads;

// A sound netlist that the second text behind the chip's says, and that no RAM closes, can be prepared.
fn can_be_prepared(texts: &Texts, sound: &Sound)
    requires circuit { closed_netlist_of (text_at texts.now 2) ≡ Ok (without_rams sound.now) }
    requires limits { IsWithinLimits (text_at texts.now 2) sound.now }
    ensures formed { IsFormed sound.now }
    ensures room { length sound.now.cells < most_cells }
    ensures sound { IsSound sound.now }
    ensures preparable { CanBePrepared sound.now }
{
    read_names_are_known();
    sound.is_sound();
}

// What a chip text and the texts behind it ask for. The netlist is prepared for the chip.
#[derive(Drop)]
struct ReadTask {
    chip: Chip,
    pcf: Pcf,
    sound: Sound,
}

// Why RAMs are not built: none can be as yet.
fn rams_refusal(need: usize) -> Cause
    ensures { (result ≡ out_of_memory) ⊎ (result ≡ BadPin (TooManyRams need 0)) }
{
    match to_u32(need) {
        Ok(need) => Cause::BadPin(PinFault::TooManyRams { need, have: 0 }),
        Err(NoMemory) => Cause::NoMemory,
    }
}

// The sound netlist that the second text behind the chip's says, where no RAM closes it.
fn read_sound(alloc: Global, texts: &Texts) -> Result<Sound, Cause>
    ensures circuit { IfOk result (λ sound.
        closed_netlist_of (text_at texts.now 2) ≡ Ok (without_rams sound)) }
    ensures limits { IfOk result (λ sound. IsWithinLimits (text_at texts.now 2) sound) }
    ensures refused { (b : Build) (chip_text : List ℕ) (parts : Parts)
        (constraints : List Constraint)
        → IsRead (chip_text ∷ texts.now) parts constraints
        → IfErr result (IsReadRefusal b (chip_text ∷ texts.now)) }
{
    let circuit = match read_closed_netlist(alloc, texts.at(2)) {
        Ok(circuit) => circuit,
        Err(fault) => return Err(blif_refusal(fault)),
    };
    let rams = circuit.rams_count();
    let sound = match check(alloc, circuit.into_netlist()) {
        Ok(sound) => sound,
        Err(fault) => return Err(net_refusal(fault)),
    };
    if rams > 0 {
        drop(sound);
        return Err(rams_refusal(rams));
    }
    Ok(sound)
}

// The netlist that the second text behind the chip's says, prepared for the chip.
fn read_net(alloc: Global, chip: &Chip, texts: &Texts) -> Result<Sound, Cause>
    ensures task { (name chip_text : List ℕ) (constraints : List Constraint)
        → IsRead (chip_text ∷ texts.now) chip.now constraints
        → IfOk result (λ sound.
        IsTaskRead name (chip_text ∷ texts.now) (task_of chip.now name constraints sound)) }
    ensures refused { (b : Build) (chip_text : List ℕ) (constraints : List Constraint)
        → IsRead (chip_text ∷ texts.now) chip.now constraints
        → IfErr result (IsReadRefusal b (chip_text ∷ texts.now)) }
{
    let sound = match read_sound(alloc, texts) {
        Ok(sound) => sound,
        Err(cause) => return Err(cause),
    };
    can_be_prepared(texts, &sound);
    match prepare(alloc, chip, sound, &[]) {
        Ok(prepared) => Ok(prepared),
        Err(NoMemory) => Err(Cause::NoMemory),
    }
}

// The task that a chip text, for which the reader stands, and the texts behind it say: first the chip, then the constraints, and then the
// netlist.
fn read_task(alloc: Global, reader: ChipReader, texts: &Texts) -> Result<ReadTask, Cause>
    ensures task { (name chip_text : List ℕ) → StandsFor reader chip_text
        → IfOk result (λ task.
        IsTaskRead name (chip_text ∷ texts.now) (task_of task.chip name task.pcf task.sound)) }
    ensures refused { (b : Build) (chip_text : List ℕ) → StandsFor reader chip_text
        → IfErr result (IsReadRefusal b (chip_text ∷ texts.now)) }
{
    let chip = match reader.finish() {
        Ok(chip) => chip,
        Err(fault) => return Err(chip_refusal(fault)),
    };
    let pcf = match read_pcf(alloc, texts.at(1)) {
        Ok(pcf) => pcf,
        Err(fault) => {
            drop(chip);
            return Err(pcf_refusal(fault));
        }
    };
    match read_net(alloc, &chip, texts) {
        Ok(sound) => Ok(ReadTask { chip, pcf, sound }),
        Err(cause) => {
            drop(pcf);
            drop(chip);
            Err(cause)
        }
    }
}

// What is made of a task: its netlist is built.
fn build_task<G: Gate + Sync, R: Threads + Sync>(
    rt: &R,
    alloc: Global,
    gate: &G,
    request: &BuildRequest<'_>,
    task: &ReadTask,
) -> Result<Made, Refused>
    requires { IsPermitted (effort_of (build_view request.now)) }
    ensures made { (texts : List (List ℕ))
        → IsTaskRead request.now.package_name.now texts
        (task_of task.now.chip request.now.package_name.now task.now.pcf task.now.sound)
        → IfOk result (λ made.
        IsMadeByBuild (build_view request.now) texts made.texts made.arrangement (told_in made)) }
    ensures refused { (texts : List (List ℕ))
        → IsTaskRead request.now.package_name.now texts
        (task_of task.now.chip request.now.package_name.now task.now.pcf task.now.sound)
        → IfErr result (IsRefusedWith (build_view request.now) texts) }
{
    prepared_pins_stay();
    prepared_are_given_alike();
    prepared_reports_stay();
    prepared_show_the_same();
    let ReadTask { chip, pcf, sound } = task;
    let name = request.package_name.as_bytes();
    let effort = Effort {
        seed: request.seed,
        rounds: request.rounds,
        workers: request.workers,
        opening: request.opening,
    };
    match build(rt, alloc, chip, name, pcf, sound, effort, gate) {
        Ok(built) => made_of(alloc, chip, request, sound.netlist(), built),
        Err(fault) => Err(build_refusal(alloc, request, fault)),
    }
}

// What is made of a chip text, for which the reader stands, and of the texts behind it.
fn build_texts<G: Gate + Sync, R: Threads + Sync>(
    rt: &R,
    alloc: Global,
    gate: &G,
    request: &BuildRequest<'_>,
    reader: ChipReader,
    texts: &Texts,
) -> Result<Made, Refused>
    requires { IsPermitted (effort_of (build_view request.now)) }
    ensures made { (chip_text : List ℕ) → StandsFor reader chip_text
        → IfOk result (λ made. IsMadeByBuild (build_view request.now) (chip_text ∷ texts.now)
        made.texts made.arrangement (told_in made)) }
    ensures refused { (chip_text : List ℕ) → StandsFor reader chip_text
        → IfErr result (IsRefusedWith (build_view request.now) (chip_text ∷ texts.now)) }
{
    match read_task(alloc, reader, texts) {
        Ok(task) => {
            let made = build_task(rt, alloc, gate, request, &task);
            // Nothing but the writing of texts follows, and then the process ends: the chip's many pieces of memory aren't given back
            // one by one.
            mem::forget(task);
            made
        }
        Err(cause) => Err(without_report(cause)),
    }
}

// Reads the files, and builds what their texts say.
fn make<D: Desk, G: Gate + Sync, R: Threads + Sync>(
    rt: &R,
    alloc: Global,
    desk: &mut D,
    gate: &G,
    request: &BuildRequest<'_>,
) -> Result<Made, Refused>
    requires chip { D.may_read desk.old request.now.chip.now }
    requires pcf { D.may_read desk.old request.now.pcf.now }
    requires blif { D.may_read desk.old request.now.blif.now }
    requires effort { IsPermitted (effort_of (build_view request.now)) }
    ensures same { SameButReading (D.seen desk.old) (D.seen desk.new) }
    ensures names_read { SameTest (D.may_read desk.old) (D.may_read desk.new) }
    ensures names_written { SameTest (D.may_write desk.old) (D.may_write desk.new) }
    ensures made { IsMadeOf (build_files (build_view request.now)) (D.seen desk.old)
        (D.seen desk.new) (unreported result) }
    ensures reported { IsReported (build_files (build_view request.now)) (D.seen desk.old) result }
    ensures given { IsToldLong (D.seen desk.new) (unreported result) }
{
    let files = [
        CommandFile {
            role: FileRole::Pcf,
            name: request.pcf,
        },
        CommandFile {
            role: FileRole::Blif,
            name: request.blif,
        },
    ];
    match read_chip_and_texts(alloc, desk, request.chip, &files) {
        Ok(ChipTexts { reader, texts }) => build_texts(rt, alloc, gate, request, reader, &texts),
        Err(cause) => Err(without_report(cause)),
    }
}

// Writes what was made to its files, or says the line of the refusal, with the report that it leaves. It takes no memory.
fn give<D: Desk>(desk: &mut D, made: Result<Made, Refused>, request: &BuildRequest<'_>) -> Done
    requires { ArePermitted (D.may_write desk.old) (outputs_of (build_view request.now)) }
    ensures names_read { SameTest (D.may_read desk.old) (D.may_read desk.new) }
    ensures names_written { SameTest (D.may_write desk.old) (D.may_write desk.new) }
    ensures status { result.status ≡ status_of result.cause }
    ensures end { IsEndInFiles (outputs_of (build_view request.now))
        (parting_of (build_view request.now)) made (D.seen desk.old)
        (D.seen desk.new) result.cause }
{
    let (files, count) = outputs(request);
    end_in_files(desk, made, &files[..count], parting(request))
}

/// Builds the netlist of one file on the chip of another, with the constraints of a third: reads the texts, makes the text of the bits
/// and the reports that are asked for, and only then writes them: first the bits, then the report on the pins, then that on the routes. A
/// refusal says its line, and writes nothing; but where the rounds give up, the report on them is written, if it is asked for. It may try
/// for 1 to 64 rounds of routing, with 1 to 8 workers, each in a thread, which pass the gate.
///
/// Where it is done and the desk tells its contents, the text that was written, read by the database of the chip's file, is a circuit
/// that for every list of levels shows step by step at the ports' pads what the netlist shows, and drives no other pad.
pub fn build_files<D: Desk, G: Gate + Sync, R: Threads + Sync>(
    rt: &R,
    alloc: Global,
    desk: &mut D,
    gate: &G,
    request: &BuildRequest<'_>,
) -> Done
    requires chip { D.may_read desk.old request.now.chip.now }
    requires pcf { D.may_read desk.old request.now.pcf.now }
    requires blif { D.may_read desk.old request.now.blif.now }
    requires outputs { ArePermitted (D.may_write desk.old) (outputs_of (build_view request.now)) }
    requires effort { IsPermitted (effort_of (build_view request.now)) }
    ensures tells { (D.seen desk.new).tells ≡ (D.seen desk.old).tells }
    ensures names_read { SameTest (D.may_read desk.old) (D.may_read desk.new) }
    ensures names_written { SameTest (D.may_write desk.old) (D.may_write desk.new) }
    ensures status { result.status ≡ status_of result.cause }
    ensures cause { IsTrueOf (build_files (build_view request.now)) (D.seen desk.old)
        (D.seen desk.new) result.cause }
    ensures headline { HeadlineRow (build_view request.now) (D.seen desk.old)
        (D.seen desk.new) result.status }
    ensures rows { IsBuildAnswer (build_view request.now) (D.seen desk.old)
        (D.seen desk.new) result }
    ensures said { (D.seen desk.old).tells ≡ true
        → SaidBy (InFiles (outputs_of (build_view request.now))) (D.seen desk.old)
        (D.seen desk.new) result.cause }
    ensures kept { (D.seen desk.old).tells ≡ true
        → KeptRow (InFiles (outputs_of (build_view request.now)))
        (parting_of (build_view request.now)) (D.seen desk.old) (D.seen desk.new) result.cause }
    ensures made { MadeRow (InFiles (outputs_of (build_view request.now)))
        (parting_of (build_view request.now)) (D.seen desk.old) (D.seen desk.new) result.cause }
    ensures silent { SilentRow (InFiles (outputs_of (build_view request.now))) (D.seen desk.old)
        (D.seen desk.new) result.cause }
    ensures parted { PartingRow (build_files (build_view request.now)) (D.seen desk.old)
        (D.seen desk.new) result.cause }
    ensures given { TellsLong (D.seen desk.new) result.cause }
{
    let made = make(rt, alloc, desk, gate, request);
    give(desk, made, request)
}
