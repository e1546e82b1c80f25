//! Writing texts to files, one after another.
ghost use Rattle.std.specs.Prelude.{◌≡◌, true, Some, IfErr, OnOk};
ghost use Rattle.ice_desk.specs.Changes.{SameButWriting, SameTest, after_one};
ghost use Rattle.ice_flow_frame.specs.Ends.{SameButFiles, IsLeft, text_of};
ghost use Rattle.ice_flow_frame.specs.Texts.{file_view, files_view, parting_view, ArePermitted, IsPermitted};
ghost use Rattle.ice_flow_frame.specs.Writing.{IsWriteStop, AreWritten, AreWrittenInPart};

use crate::cause::FileRole;
use crate::files::{CommandFile, Texts};
use ice_desk::{Desk, WriteStop, write_whole};

// Why files were not all written: at which the writing stopped, and at which put, from 1, or at its make, which is 0.
#[derive(Clone, Copy)]
pub(crate) struct FileStop {
    pub(crate) role: FileRole,
    pub(crate) put: u64,
}

// Writes a text to a file. It takes no memory.
fn write_text<D: Desk>(desk: &mut D, file: &CommandFile<'_>, text: &[u8]) -> Result<(), FileStop>
    requires { D.may_write desk.old file.now.name.now }
    ensures same { SameButWriting file.now.name.now (D.seen desk.old) (D.seen desk.new) }
    ensures names_read { SameTest (D.may_read desk.old) (D.may_read desk.new) }
    ensures names_written { SameTest (D.may_write desk.old) (D.may_write desk.new) }
    ensures made { (D.seen desk.new).makes ≡ after_one (D.seen desk.old).makes }
    ensures written { OnOk result ((D.seen desk.old).tells ≡ true
        → (D.seen desk.new).files file.now.name.now ≡ Some text.now) }
    ensures stop { IfErr result (λ stop. IsWriteStop (file_view file.now) text.now (D.seen desk.old)
        (D.seen desk.new) stop.role stop.put) }
{
    match write_whole(desk, file.name, text) {
        Ok(()) => Ok(()),
        Err(WriteStop::Failed { put }) => Err(FileStop {
            role: file.role,
            put,
        }),
    }
}

// Writes texts to files, one after another, each with the text of its place. It takes no memory.
pub(crate) fn write_texts<D: Desk>(
    desk: &mut D,
    files: &[CommandFile<'_>],
    texts: &Texts,
) -> Result<(), FileStop>
    requires { ArePermitted (D.may_write desk.old) (files_view files.now) }
    ensures same { SameButFiles (D.seen desk.old) (D.seen desk.new) }
    ensures names_read { SameTest (D.may_read desk.old) (D.may_read desk.new) }
    ensures names_written { SameTest (D.may_write desk.old) (D.may_write desk.new) }
    ensures written { OnOk result
        (AreWritten (files_view files.now) texts.now (D.seen desk.old) (D.seen desk.new)) }
    ensures stop { IfErr result (λ stop. AreWrittenInPart (files_view files.now) texts.now
        (D.seen desk.old) (D.seen desk.new) stop.role stop.put) }
{
    let mut written = 0;
    while written < files.len() {
        match write_text(desk, &files[written], texts.at(written + 1)) {
            Ok(()) => written += 1,
            Err(stop) => return Err(stop),
        }
    }
    Ok(())
}

// Leaves a text in a file, where there are both, as far as no call fails. It takes no memory.
pub(crate) fn leave_report<D: Desk>(
    desk: &mut D,
    report: &Option<Vec<u8>>,
    parting: Option<CommandFile<'_>>,
)
    requires { IsPermitted (D.may_write desk.old) (parting_view parting) }
    ensures names_read { SameTest (D.may_read desk.old) (D.may_read desk.new) }
    ensures names_written { SameTest (D.may_write desk.old) (D.may_write desk.new) }
    ensures left { IsLeft (parting_view parting.entry) (text_of report.now)
        (D.seen desk.old) (D.seen desk.new) }
{
    if let Some(file) = parting {
        if let Some(text) = report {
            let _written = write_text(desk, &file, text);
        }
    }
}
