//! Commands: files are read, something is made of their texts, and only then it is said or written.
ghost use Rattle.std.specs.Prelude.{◌≡◌, ◌<◌, ℕ, List, length, true, None, IfOk, IfErr};
ghost use Rattle.ice_place.specs.declared.arrangement.Arrangement.{Arrangement};
ghost use Rattle.ice_desk.specs.Changes.{SameButReading, SameTest};
ghost use Rattle.ice_flow_frame.specs.declared.cause.Cause.{Cause};
ghost use Rattle.ice_flow_frame.specs.Causes.{status_of};
ghost use Rattle.ice_flow_frame.specs.Reading.{TellsLong};
ghost use Rattle.ice_flow_frame.specs.Told.{Told, told_in};
ghost use Rattle.ice_flow_frame.specs.Texts.{files_view, ArePermitted};
ghost use Rattle.ice_flow_frame.specs.Commands.{Output, command_of, Aloud, IsRefusal, IsTrueOf};
ghost use Rattle.ice_flow_frame.specs.Ends.{unreported, IsMadeOf, IsToldLong};
ghost use Rattle.ice_flow_frame.specs.Rows.{SaidBy, KeptRow};

use crate::cause::{Cause, Done};
use crate::files::{CommandFile, Texts, read_texts};
use crate::giving::{Made, Refused, end_aloud};
use ice_desk::Desk;
use std::alloc::Global;

/// What a command makes of its texts.
pub trait Making {
    /// How texts stand, by the answer that they have.
    ghost stands: { Self → List (List ℕ) → Cause → Type 0 };

    /// What is made of texts: texts, with the arrangement that they are about and what is told of its routing.
    ghost gives: { Self → List (List ℕ) → List (List ℕ) → Arrangement → Told → Type 0 };

    /// What is made of the texts, or why nothing is made.
    fn make(&self, alloc: Global, texts: &Texts) -> Result<Made, Cause>
        ensures given { IfOk result (λ made.
            gives self.now texts.now made.texts made.arrangement (told_in made)) }
        ensures refused { IfErr result (λ cause. IsRefusal (stands self.now texts.now) cause) };
}

// Reads the files, and makes of their texts what is to be made.
fn make_of<D: Desk, M: Making>(
    alloc: Global,
    desk: &mut D,
    files: &[CommandFile<'_>],
    making: &M,
) -> Result<Made, Cause>
    requires { ArePermitted (D.may_read desk.old) (files_view files.now) }
    ensures same { SameButReading (D.seen desk.old) (D.seen desk.new) }
    ensures names_read { SameTest (D.may_read desk.old) (D.may_read desk.new) }
    ensures names_written { SameTest (D.may_write desk.old) (D.may_write desk.new) }
    ensures made { (output : Output)
        → IsMadeOf
        (command_of (files_view files.now) (M.stands making.now) (M.gives making.now) output)
        (D.seen desk.old) (D.seen desk.new) result }
    ensures given { 0 < length files.now → IsToldLong (D.seen desk.new) result }
{
    match read_texts(alloc, desk, files) {
        Ok(texts) => making.make(alloc, &texts),
        Err(cause) => Err(cause),
    }
}

/// What was made, or why nothing was made, with no text to be left.
pub fn without_report(made: Result<Made, Cause>) -> Result<Made, Refused>
    ensures same { unreported result ≡ made }
    ensures none { IfErr result (λ refused. refused.report ≡ None) }
{
    match made {
        Ok(made) => Ok(made),
        Err(cause) => Err(Refused {
            cause,
            report: None,
        }),
    }
}

/// Reads files, and says what is made of their texts, or the line of a refusal. After a failed say nothing more is said. No file
/// is made.
pub fn say_made<D: Desk, M: Making>(
    alloc: Global,
    desk: &mut D,
    files: &[CommandFile<'_>],
    making: &M,
) -> Done
    requires { ArePermitted (D.may_read desk.old) (files_view files.now) }
    ensures tells { (D.seen desk.new).tells ≡ (D.seen desk.old).tells }
    ensures names_read { SameTest (D.may_read desk.old) (D.may_read desk.new) }
    ensures names_written { SameTest (D.may_write desk.old) (D.may_write desk.new) }
    ensures status { result.status ≡ status_of result.cause }
    ensures cause { IsTrueOf
        (command_of (files_view files.now) (M.stands making.now) (M.gives making.now) Aloud)
        (D.seen desk.old) (D.seen desk.new) result.cause }
    ensures said { (D.seen desk.old).tells ≡ true
        → SaidBy Aloud (D.seen desk.old) (D.seen desk.new) result.cause }
    ensures kept { (D.seen desk.old).tells ≡ true
        → KeptRow Aloud None (D.seen desk.old) (D.seen desk.new) result.cause }
    ensures made { (D.seen desk.new).makes ≡ (D.seen desk.old).makes }
    ensures given { 0 < length files.now → TellsLong (D.seen desk.new) result.cause }
{
    let made = make_of(alloc, desk, files, making);
    end_aloud(desk, made)
}
