//! Giving what a command made: it is said or written; or, where nothing was made, the line of the refusal is said.
ghost use Rattle.std.specs.Prelude.{◌≡◌, ◌∷◌, [], IfOk, IfErr};
ghost use Rattle.ice_desk.specs.Changes.{SameButSaying, SameTest};
ghost use Rattle.ice_flow_frame.specs.declared.cause.Cause.TheVariants.{NoMemory as out_of_memory};
ghost use Rattle.ice_flow_frame.specs.Causes.{no_arrangement, status_of};
ghost use Rattle.ice_flow_frame.specs.Commands.{Aloud, InFiles, IsPut};
ghost use Rattle.ice_flow_frame.specs.Ends.{SameButFiles, IsEndAloud, IsEndInFiles};
ghost use Rattle.ice_flow_frame.specs.Told.{nothing_told, told_in};
ghost use Rattle.ice_flow_frame.specs.Texts.{files_view, parting_view, ArePermitted, IsPermitted};

use crate::cause::{Cause, Done, FileRole, no_arrangement, no_tallies, none_kept};
use crate::end::{done, finish};
use crate::files::{CommandFile, Texts, one_text};
use crate::writing::{leave_report, write_texts};
use ice_base::NoMemory;
use ice_desk::{Desk, say_text};
use ice_negotiate_defs::Kept;
use ice_place::Arrangement;
use ice_words::Tally;
use std::alloc::Global;

/// What a command made of its texts.
#[derive(Drop)]
pub struct Made {
    /// The text for each place where the command gives: the one that is said, or one for each file, in the order of writing.
    pub texts: Texts,
    /// The arrangement of what was built; it has no cell where nothing is placed.
    pub arrangement: Arrangement,
    /// The tallies of its rounds in order; there are none where nothing is routed.
    pub tallies: Vec<Tally>,
    /// What the opening left of its nets; nothing where there was none.
    pub kept: Vec<Kept>,
}

/// One text, with the arrangement of no cell, the tallies of no round and what is left of no net.
///
/// # Errors
/// Want of memory alone.
pub fn made_text(alloc: Global, text: Vec<u8>) -> Result<Made, Cause>
    ensures text { IfOk result (λ made. made.texts ≡ text.items ∷ []) }
    ensures arrangement { IfOk result (λ made. made.arrangement ≡ no_arrangement) }
    ensures told { IfOk result (λ made. told_in made ≡ nothing_told) }
    ensures stop { IfErr result (λ cause. cause ≡ out_of_memory) }
{
    match one_text(alloc, text) {
        Ok(texts) => Ok(Made {
            texts,
            arrangement: no_arrangement(alloc),
            tallies: no_tallies(alloc),
            kept: none_kept(alloc),
        }),
        Err(NoMemory) => Err(Cause::NoMemory),
    }
}

/// Why a command that writes made nothing.
#[derive(Drop)]
pub struct Refused {
    /// What the answer is about.
    pub cause: Cause,
    /// The text that is to be left in the parting file, where the rounds gave up and there is such a file.
    pub report: Option<Vec<u8>>,
}

// Says the first text, whole or up to a say that failed. Each memory was taken before.
fn put_aloud<D: Desk>(desk: &mut D, made: Made) -> Cause
    ensures same { SameButSaying (D.seen desk.old) (D.seen desk.new) }
    ensures names_read { SameTest (D.may_read desk.old) (D.may_read desk.new) }
    ensures names_written { SameTest (D.may_write desk.old) (D.may_write desk.new) }
    ensures put { IsPut Aloud made.texts made.arrangement (told_in made) (D.seen desk.old)
        (D.seen desk.new) result }
{
    match say_text(desk, made.texts.at(1)) {
        Ok(()) => Cause::Good {
            arrangement: made.arrangement,
            tallies: made.tallies,
            kept: made.kept,
        },
        Err(put) => Cause::WriteFault {
            role: FileRole::Standard,
            put,
        },
    }
}

/// Ends a command that speaks: says what was made, or the line of the refusal. After a failed say nothing more is said. No file is
/// made. It takes no memory.
pub fn end_aloud<D: Desk>(desk: &mut D, made: Result<Made, Cause>) -> Done
    ensures status { result.status ≡ status_of result.cause }
    ensures names_read { SameTest (D.may_read desk.old) (D.may_read desk.new) }
    ensures names_written { SameTest (D.may_write desk.old) (D.may_write desk.new) }
    ensures end { IsEndAloud made (D.seen desk.old) (D.seen desk.new) result.cause }
{
    match made {
        Ok(made) => done(put_aloud(desk, made)),
        Err(cause) => finish(desk, cause),
    }
}

// Writes the texts to files. Each memory was taken before.
fn put_in_files<D: Desk>(desk: &mut D, files: &[CommandFile<'_>], made: Made) -> Cause
    requires { ArePermitted (D.may_write desk.old) (files_view files.now) }
    ensures same { SameButFiles (D.seen desk.old) (D.seen desk.new) }
    ensures names_read { SameTest (D.may_read desk.old) (D.may_read desk.new) }
    ensures names_written { SameTest (D.may_write desk.old) (D.may_write desk.new) }
    ensures put { IsPut (InFiles (files_view files.now)) made.texts made.arrangement (told_in made)
        (D.seen desk.old) (D.seen desk.new) result }
{
    match write_texts(desk, files, &made.texts) {
        Ok(()) => Cause::Good {
            arrangement: made.arrangement,
            tallies: made.tallies,
            kept: made.kept,
        },
        Err(stop) => Cause::WriteFault {
            role: stop.role,
            put: stop.put,
        },
    }
}

/// Ends a command that writes: writes what was made to the outputs, one after another, each with the text of its place; or leaves the
/// text of the report in the parting file, where there are both, and says the line of the refusal. A fault at the parting file changes
/// neither the status nor the cause. It takes no memory.
pub fn end_in_files<D: Desk>(
    desk: &mut D,
    made: Result<Made, Refused>,
    outputs: &[CommandFile<'_>],
    parting: Option<CommandFile<'_>>,
) -> Done
    requires outputs { ArePermitted (D.may_write desk.old) (files_view outputs.now) }
    requires parting { IsPermitted (D.may_write desk.old) (parting_view parting) }
    ensures status { result.status ≡ status_of result.cause }
    ensures names_read { SameTest (D.may_read desk.old) (D.may_read desk.new) }
    ensures names_written { SameTest (D.may_write desk.old) (D.may_write desk.new) }
    ensures end { IsEndInFiles (files_view outputs.now) (parting_view parting.entry) made
        (D.seen desk.old) (D.seen desk.new) result.cause }
{
    match made {
        Ok(made) => {
            let cause = put_in_files(desk, outputs, made);
            finish(desk, cause)
        }
        Err(refused) => {
            leave_report(desk, &refused.report, parting);
            finish(desk, refused.cause)
        }
    }
}
