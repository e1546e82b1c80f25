//! Commands on a configured chip: files are read, something is made of their texts, and only then it is said or written.
ghost use Rattle.std.specs.Prelude.{◌≡◌, ◌<◌, length, true, None};
ghost use Rattle.ice_desk.specs.Changes.{SameTest, SameButReading};
ghost use Rattle.ice_flow_frame.specs.Causes.{status_of};
ghost use Rattle.ice_flow_frame.specs.Reading.{TellsLong};
ghost use Rattle.ice_flow_frame.specs.Texts.{files_view, ArePermitted};
ghost use Rattle.ice_flow_frame.specs.Commands.{Output, Aloud, InFiles, IsTrueOf};
ghost use Rattle.ice_flow_frame.specs.Ends.{IsMadeOf, IsToldLong};
ghost use Rattle.ice_flow_frame.specs.Rows.{SaidBy, KeptRow, MadeRow, SilentRow};
ghost use Rattle.ice_flow_chip_frame.specs.ChipFiles.{with_chip};
ghost use Rattle.ice_flow_chip_frame.specs.Standing.{command_on_bits};

use crate::configured::{ChipMaking, make_of_texts};
use crate::texts::{ChipTexts, read_chip_and_texts};
use ice_desk::Desk;
use ice_flow_frame::{Cause, CommandFile, Done, Made, end_aloud, end_in_files, without_report};
use std::alloc::Global;

// Reads the files, and makes of their texts what is to be made.
fn make_of<D: Desk, M: ChipMaking>(
    alloc: Global,
    desk: &mut D,
    chip: &str,
    files: &[CommandFile<'_>],
    package_name: &str,
    making: &M,
) -> Result<Made, Cause>
    requires chip { D.may_read desk.old chip.now }
    requires files { ArePermitted (D.may_read desk.old) (files_view files.now) }
    ensures same { SameButReading (D.seen desk.old) (D.seen desk.new) }
    ensures names_read { SameTest (D.may_read desk.old) (D.may_read desk.new) }
    ensures names_written { SameTest (D.may_write desk.old) (D.may_write desk.new) }
    ensures made { (output : Output)
        → IsMadeOf
        (command_on_bits (M.rams making.now) (with_chip chip.now (files_view files.now))
        package_name.now (M.stands making.now) (M.gives making.now) output)
        (D.seen desk.old) (D.seen desk.new) result }
    ensures given { 0 < length files.now → IsToldLong (D.seen desk.new) result }
{
    match read_chip_and_texts(alloc, desk, chip, files) {
        Ok(ChipTexts { reader, texts }) => make_of_texts(
            alloc,
            reader,
            &texts,
            package_name,
            making,
        ),
        Err(cause) => Err(cause),
    }
}

/// Reads the file of a chip database, that of its bits and other files, in this order, and says what is made of their texts and of the
/// package of this name, or the line of a refusal. After a failed say
/// nothing more is said. No file is made.
pub fn say_made_on_chip<D: Desk, M: ChipMaking>(
    alloc: Global,
    desk: &mut D,
    chip: &str,
    files: &[CommandFile<'_>],
    package_name: &str,
    making: &M,
) -> Done
    requires chip { D.may_read desk.old chip.now }
    requires files { ArePermitted (D.may_read desk.old) (files_view files.now) }
    ensures tells { (D.seen desk.new).tells ≡ (D.seen desk.old).tells }
    ensures names_read { SameTest (D.may_read desk.old) (D.may_read desk.new) }
    ensures names_written { SameTest (D.may_write desk.old) (D.may_write desk.new) }
    ensures status { result.status ≡ status_of result.cause }
    ensures cause { IsTrueOf
        (command_on_bits (M.rams making.now) (with_chip chip.now (files_view files.now))
        package_name.now (M.stands making.now) (M.gives making.now) Aloud)
        (D.seen desk.old) (D.seen desk.new) result.cause }
    ensures said { (D.seen desk.old).tells ≡ true
        → SaidBy Aloud (D.seen desk.old) (D.seen desk.new) result.cause }
    ensures kept { (D.seen desk.old).tells ≡ true
        → KeptRow Aloud None (D.seen desk.old) (D.seen desk.new) result.cause }
    ensures made { (D.seen desk.new).makes ≡ (D.seen desk.old).makes }
    ensures given { 0 < length files.now → TellsLong (D.seen desk.new) result.cause }
{
    let made = make_of(alloc, desk, chip, files, package_name, making);
    end_aloud(desk, made)
}

/// Reads the file of a chip database, that of its bits and other files, in this order, and writes what is made of their texts and of the
/// package of this name to the outputs, one after another, each with the text of its place; or says the line of a refusal.
pub fn write_made_on_chip<D: Desk, M: ChipMaking>(
    alloc: Global,
    desk: &mut D,
    chip: &str,
    files: &[CommandFile<'_>],
    package_name: &str,
    making: &M,
    outputs: &[CommandFile<'_>],
) -> Done
    requires chip { D.may_read desk.old chip.now }
    requires files { ArePermitted (D.may_read desk.old) (files_view files.now) }
    requires outputs { ArePermitted (D.may_write desk.old) (files_view outputs.now) }
    ensures tells { (D.seen desk.new).tells ≡ (D.seen desk.old).tells }
    ensures names_read { SameTest (D.may_read desk.old) (D.may_read desk.new) }
    ensures names_written { SameTest (D.may_write desk.old) (D.may_write desk.new) }
    ensures status { result.status ≡ status_of result.cause }
    ensures cause { IsTrueOf
        (command_on_bits (M.rams making.now) (with_chip chip.now (files_view files.now))
        package_name.now (M.stands making.now) (M.gives making.now)
        (InFiles (files_view outputs.now)))
        (D.seen desk.old) (D.seen desk.new) result.cause }
    ensures said { (D.seen desk.old).tells ≡ true
        → SaidBy (InFiles (files_view outputs.now)) (D.seen desk.old)
        (D.seen desk.new) result.cause }
    ensures kept { (D.seen desk.old).tells ≡ true
        → KeptRow (InFiles (files_view outputs.now)) None (D.seen desk.old)
        (D.seen desk.new) result.cause }
    ensures made { MadeRow (InFiles (files_view outputs.now)) None (D.seen desk.old)
        (D.seen desk.new) result.cause }
    ensures silent { SilentRow (InFiles (files_view outputs.now)) (D.seen desk.old)
        (D.seen desk.new) result.cause }
    ensures given { 0 < length files.now → TellsLong (D.seen desk.new) result.cause }
{
    let made = make_of(alloc, desk, chip, files, package_name, making);
    end_in_files(desk, without_report(made), outputs, None)
}
