//! Reading the files of a command, each to its end.
ghost use Rattle.std.specs.Prelude.{◌≡◌, ◌≤◌, length, IfOk, IfErr, OnOk};
ghost use Rattle.ice_desk.specs.Changes.{SameButReading, SameTest, after_one};
ghost use Rattle.ice_flow_frame.specs.Reading.{IsTextOf, IsReadStop, TellsLong, most_bytes};

use crate::cause::{Cause, FileRole};
use ice_desk::{Desk, ReadStop, read_whole};
use std::alloc::Global;

/// The most bytes of a text.
pub const MOST_BYTES: usize = 268_435_456;

/// The text of one file, which has this role.
///
/// # Errors
/// A fault of the desk, a text that is too long, or want of memory.
pub fn read_text<D: Desk>(
    alloc: Global,
    desk: &mut D,
    name: &str,
    role: FileRole,
) -> Result<Vec<u8>, Cause>
    requires { D.may_read desk.old name.now }
    ensures same { SameButReading (D.seen desk.old) (D.seen desk.new) }
    ensures names_read { SameTest (D.may_read desk.old) (D.may_read desk.new) }
    ensures names_written { SameTest (D.may_write desk.old) (D.may_write desk.new) }
    ensures begun { (D.seen desk.new).begins ≡ after_one (D.seen desk.old).begins }
    ensures text { IfOk result (λ text. IsTextOf (D.seen desk.old) name.now text.items) }
    ensures fits { IfOk result (λ text. length text.items ≤ most_bytes) }
    ensures given { OnOk result ((D.seen desk.new).given ≤ most_bytes) }
    ensures given_stop { IfErr result (λ cause. TellsLong (D.seen desk.new) cause) }
    ensures stop { IfErr result (λ cause.
        IsReadStop name.now role (D.seen desk.old) (D.seen desk.new) cause) }
{
    match read_whole(alloc, desk, name, MOST_BYTES) {
        Ok(text) => Ok(text),
        Err(ReadStop::Failed) => Err(Cause::ReadFault { role }),
        Err(ReadStop::TooLong { limit }) => Err(Cause::TooLong { role, limit }),
        Err(ReadStop::NoMemory) => Err(Cause::NoMemory),
    }
}
