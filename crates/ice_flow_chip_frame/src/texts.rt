//! The files of a command, of which the first is a chip database's: it is read piece by piece, and the others whole.
ghost use Rattle.std.specs.Prelude.{◌≡◌, ◌<◌, ◌≤◌, List, [], length, OnOk, IfOk, IfErr};
ghost use Rattle.ice_desk.specs.Changes.{SameButReading, SameTest, after_one};
ghost use Rattle.ice_flow_frame.specs.declared.cause.FileRole.TheVariants.{Chip};
ghost use Rattle.ice_flow_frame.specs.Reading.{Files, most_bytes, IsReadStop, IsUnread, TellsLong};
ghost use Rattle.ice_flow_frame.specs.Texts.{files_view, ArePermitted};
ghost use Rattle.ice_chip_read_pieces.specs.Stands.{StandsFor};
ghost use Rattle.ice_flow_chip_frame.specs.ChipFiles.{with_chip, HasRead, AreRead};

use ice_chip_read_pieces::ChipReader;
use ice_desk::{Desk, ReadStop};
use ice_desk_pieces::read_pieces;
use ice_flow_frame::{Cause, CommandFile, FileRole, MOST_BYTES, Texts, read_texts};
use std::alloc::Global;

/// What was read of a command's files.
#[derive(Drop)]
pub struct ChipTexts {
    /// The reader that stands for the text of the chip database.
    pub reader: ChipReader,
    /// The texts of the files behind it, in the order of reading.
    pub texts: Texts,
}

// Hands the file of a chip database on to a reader, to the file's end.
fn read_chip_text<D: Desk>(desk: &mut D, chip: &str, reader: &mut ChipReader) -> Result<(), Cause>
    requires name { D.may_read desk.old chip.now }
    requires empty { StandsFor reader.old [] }
    ensures same { SameButReading (D.seen desk.old) (D.seen desk.new) }
    ensures names_read { SameTest (D.may_read desk.old) (D.may_read desk.new) }
    ensures names_written { SameTest (D.may_write desk.old) (D.may_write desk.new) }
    ensures begun { (D.seen desk.new).begins ≡ after_one (D.seen desk.old).begins }
    ensures text { OnOk result (HasRead (D.seen desk.old) chip.now reader.new) }
    ensures given { OnOk result ((D.seen desk.new).given ≤ most_bytes) }
    ensures stop { IfErr result (λ cause.
        IsReadStop chip.now Chip (D.seen desk.old) (D.seen desk.new) cause) }
    ensures given_stop { IfErr result (λ cause. TellsLong (D.seen desk.new) cause) }
{
    let role = FileRole::Chip;
    match read_pieces(desk, chip, MOST_BYTES, reader) {
        Ok(()) => Ok(()),
        Err(ReadStop::Failed) => Err(Cause::ReadFault { role }),
        Err(ReadStop::TooLong { limit }) => Err(Cause::TooLong { role, limit }),
        Err(ReadStop::NoMemory) => Err(Cause::NoMemory),
    }
}

/// Reads files in this order, each to its end: that of the chip database, which has this name and is handed on to its reader piece by
/// piece, and then the others, whose texts are held. A fault of the chip text is told by the reader's end alone.
///
/// # Errors
/// What stopped the reading, and at which file.
pub fn read_chip_and_texts<D: Desk>(
    alloc: Global,
    desk: &mut D,
    chip: &str,
    files: &[CommandFile<'_>],
) -> Result<ChipTexts, Cause>
    requires chip { D.may_read desk.old chip.now }
    requires files { ArePermitted (D.may_read desk.old) (files_view files.now) }
    ensures same { SameButReading (D.seen desk.old) (D.seen desk.new) }
    ensures names_read { SameTest (D.may_read desk.old) (D.may_read desk.new) }
    ensures names_written { SameTest (D.may_write desk.old) (D.may_write desk.new) }
    ensures texts { IfOk result (λ read. AreRead (with_chip chip.now (files_view files.now))
        (D.seen desk.old) read.reader read.texts) }
    ensures stop { IfErr result (λ cause. IsUnread (with_chip chip.now (files_view files.now))
        (D.seen desk.old) (D.seen desk.new) cause) }
    ensures given { OnOk result (0 < length files.now → (D.seen desk.new).given ≤ most_bytes) }
    ensures given_stop { IfErr result (λ cause. TellsLong (D.seen desk.new) cause) }
{
    let mut reader = ChipReader::empty(alloc);
    match read_chip_text(desk, chip, &mut reader) {
        Ok(()) => match read_texts(alloc, desk, files) {
            Ok(texts) => Ok(ChipTexts { reader, texts }),
            Err(cause) => {
                drop(reader);
                Err(cause)
            }
        },
        Err(cause) => {
            drop(reader);
            Err(cause)
        }
    }
}
