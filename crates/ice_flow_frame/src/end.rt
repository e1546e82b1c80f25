//! The end of a command: its status, and the line that a refusal says.
ghost use Rattle.std.specs.Prelude.{◌≡◌, ◌↔◌, IsTrue, true};
ghost use Rattle.ice_desk.specs.Changes.{SameButSaying, SameTest};
ghost use Rattle.ice_flow_frame.specs.Causes.{status_of, line_of};
ghost use Rattle.ice_flow_frame.specs.Says.{IsWorkDone, SilentWhereDone};
ghost use Rattle.ice_desk.specs.Said.{SaidRow};

use crate::cause::{Cause, Done};
use crate::say::say_line;
use ice_desk::Desk;

// The status of a cause.
fn status(cause: &Cause) -> u8
    ensures { result ≡ status_of cause.now }
{
    match cause {
        Cause::Good { .. } => 0,
        Cause::Usage => 2,
        Cause::BadBlif(_) => 3,
        Cause::BadPcf(_) => 4,
        Cause::BadChip(_) => 5,
        Cause::BadNet(_) => 6,
        Cause::BadPin(_) => 7,
        Cause::Overfull(_) => 8,
        Cause::Unreachable { .. } => 9,
        Cause::GaveUp { .. } => 10,
        Cause::ReadFault { .. } => 11,
        Cause::WriteFault { .. } => 12,
        Cause::NoMemory => 13,
        Cause::BadAsc(_) => 14,
        Cause::BadBits(_) => 15,
        Cause::TooLong { .. } => 16,
        Cause::BadLevels { .. } => 17,
        Cause::BadDelays { .. } => 19,
    }
}

// Whether the work is done.
fn is_done(cause: &Cause) -> bool
    ensures { IsTrue result ↔ IsWorkDone cause.now }
{
    match cause {
        Cause::Good { .. } => true,
        _ => false,
    }
}

/// The answer with its status; nothing more is said. It takes no memory.
pub fn done(cause: Cause) -> Done
    ensures cause { result.cause ≡ cause }
    ensures status { result.status ≡ status_of cause }
{
    Done {
        status: status(&cause),
        cause,
    }
}

/// The end of a command: a refusal says its line, as far as no say fails, and where the work is done nothing is said. It takes no
/// memory.
pub fn finish<D: Desk>(desk: &mut D, cause: Cause) -> Done
    ensures same { SameButSaying (D.seen desk.old) (D.seen desk.new) }
    ensures names_read { SameTest (D.may_read desk.old) (D.may_read desk.new) }
    ensures names_written { SameTest (D.may_write desk.old) (D.may_write desk.new) }
    ensures cause { result.cause ≡ cause }
    ensures status { result.status ≡ status_of cause }
    ensures said { (D.seen desk.old).tells ≡ true
        → SaidRow (D.seen desk.old) (D.seen desk.new) (line_of cause) }
    ensures silent { SilentWhereDone (D.seen desk.old) (D.seen desk.new) cause }
{
    if is_done(&cause) {
        return done(cause);
    }
    let _said = say_line(desk, &cause);
    done(cause)
}
