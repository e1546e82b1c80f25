//! Reading a file piece by piece.
ghost use Rattle.std.specs.Prelude.{◌≡◌, ℕ, ◌<◌, List, [], length, true, Some, IsErrOf, OnOk, OnErr};
ghost use Rattle.ice_desk.specs.Changes.{SameButReading, SameTest, after_one, Rose};
ghost use Rattle.ice_desk.specs.declared.whole.ReadStop.TheVariants.{Failed, TooLong, NoMemory};
ghost use Rattle.ice_desk_pieces.specs.Taken.{TakesMore, IsWhole, IsFront};

use crate::Taker;
use ice_desk::{Desk, ReadStop};

/// How many bytes one read asks for, which are the most of a piece.
const PIECE: usize = 4096;

/// Hands a file of at most `limit` bytes on to a taker, in pieces of at most 4,096 bytes. It begins the file once and stops
/// at the first read that gives nothing, that fails, or after which more than `limit` bytes were given, and where the taker
/// has no memory for a piece. Of a read after which too many bytes were given nothing is handed on. It takes no memory of
/// its own.
///
/// # Errors
/// As those of `read_whole`: a call of the desk failed, there were more bytes than the limit, or the taker had no memory.
#[tactic(auto, using(ice_desk::proofs::Desks::reading_trans, ice_desk::proofs::Desks::same_test_trans))]
pub fn read_pieces<D: Desk, T: Taker>(
    desk: &mut D,
    name: &str,
    limit: usize,
    taker: &mut T,
) -> Result<(), ReadStop>
    requires { D.may_read desk.old name.now }
    ensures same { SameButReading (D.seen desk.old) (D.seen desk.new) }
    ensures names_read { SameTest (D.may_read desk.old) (D.may_read desk.new) }
    ensures names_written { SameTest (D.may_write desk.old) (D.may_write desk.new) }
    ensures begun { (D.seen desk.new).begins ≡ after_one (D.seen desk.old).begins }
    ensures taken { OnOk result
        ((bytes : List ℕ) × IsWhole (D.seen desk.old) (D.seen desk.new) name.now bytes
        × TakesMore (T.stands taker.old) (T.stands taker.new) bytes) }
    ensures end { OnOk result ((D.seen desk.old).tells ≡ true → (D.seen desk.new).left ≡ []) }
    ensures cause { IsErrOf result Failed
        → Rose (D.seen desk.old).read_faults (D.seen desk.new).read_faults }
    ensures other_faults { (IsErrOf result Failed → ⊥)
        → (D.seen desk.new).read_faults ≡ (D.seen desk.old).read_faults }
    ensures too_long { limit < (D.seen desk.new).given → IsErrOf result (TooLong limit) }
    ensures counted { IsErrOf result (TooLong limit) → Rose limit (D.seen desk.new).given }
    ensures that_limit { (n : ℕ) → IsErrOf result (TooLong n) → n ≡ limit }
    ensures longer { (n : ℕ) → IsErrOf result (TooLong n) → (bytes : List ℕ)
        → (D.seen desk.old).tells ≡ true → (D.seen desk.old).files name.now ≡ Some bytes
        → limit < length bytes }
    ensures no_memory { IsErrOf result NoMemory → T.spent taker.new }
    ensures still { T.spent taker.old → T.spent taker.new }
    ensures front { OnErr result ((IsErrOf result NoMemory → ⊥)
        → (bytes : List ℕ) × IsFront (D.seen desk.old) (D.seen desk.new) name.now bytes
        × TakesMore (T.stands taker.old) (T.stands taker.new) bytes) }
{
    if desk.begin(name).is_err() {
        return Err(ReadStop::Failed);
    }
    let mut piece = [0u8; PIECE];
    let mut given = 0;
    loop {
        match desk.read(&mut piece) {
            Err(_) => return Err(ReadStop::Failed),
            Ok(0) => return Ok(()),
            Ok(count) => {
                if count > limit - given {
                    return Err(ReadStop::TooLong { limit });
                }
                match taker.take(&piece[..count]) {
                    Ok(()) => given += count,
                    Err(_) => return Err(ReadStop::NoMemory),
                }
            }
        }
    }
}
