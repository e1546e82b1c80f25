//! Whole files over any desk: reading one up to a limit, and writing one.
ghost use Rattle.std.specs.Prelude.{◌≡◌, ℕ, ◌<◌, ◌≤◌, ◌↔◌, List, [], length, true, false, Some, None, IfOk, IsErrOf, OnOk, OnErr, if◌then◌else◌};
ghost use Rattle.ice_desk.specs.declared.whole.ReadStop.TheVariants.{NoMemory};
ghost use Rattle.ice_desk.specs.Changes.{SameButReading, SameButWriting, SameTest, HoldsAfter, after_one, Rose};

use crate::{Desk, Failed};
use std::alloc::{AllocError, Global};
use thiserror::Error;

/// Why a file was not read whole.
#[derive(Clone, Copy, Debug, PartialEq, Eq, Error)]
pub enum ReadStop {
    /// A call of the desk failed.
    #[error("a call of the desk failed")]
    Failed,
    /// The desk gave more bytes than the limit.
    #[error("more than {limit} bytes")]
    TooLong { limit: usize },
    /// There was no memory for the bytes.
    #[error("want of memory")]
    NoMemory,
}

impl From<AllocError> for ReadStop {
    ghost from_gives = { λ _ e. e ≡ NoMemory };

    fn from(_: AllocError) -> Self {
        ReadStop::NoMemory
    }
}

/// How many bytes one read asks for.
const PIECE: usize = 4096;

/// The bytes of a file of at most `limit` bytes. It begins the file once and stops at the first read
/// that gives nothing, that fails, or after which more than `limit` bytes were given.
#[tactic(auto, using(crate::proofs::Desks::reading_trans, crate::proofs::Desks::same_test_trans))]
pub fn read_whole<D: Desk>(
    alloc: Global,
    desk: &mut D,
    name: &str,
    limit: usize,
) -> Result<Vec<u8>, ReadStop>
    requires { D.may_read desk.old name.now }
    ensures same { SameButReading (D.seen desk.old) (D.seen desk.new) }
    ensures names_read { SameTest (D.may_read desk.old) (D.may_read desk.new) }
    ensures names_written { SameTest (D.may_write desk.old) (D.may_write desk.new) }
    ensures begun { (D.seen desk.new).begins ≡ after_one (D.seen desk.old).begins }
    ensures bytes { IfOk result (λ text.
        (D.seen desk.old).tells ≡ true → (D.seen desk.old).files name.now ≡ Some text.items) }
    ensures end { OnOk result ((D.seen desk.old).tells ≡ true → (D.seen desk.new).left ≡ []) }
    ensures given { IfOk result (λ text. (D.seen desk.new).given ≡ length text.items) }
    ensures cause { IsErrOf result ReadStop.Failed
        → Rose (D.seen desk.old).read_faults (D.seen desk.new).read_faults }
    ensures other_faults { (IsErrOf result ReadStop.Failed → ⊥)
        → (D.seen desk.new).read_faults ≡ (D.seen desk.old).read_faults }
    ensures too_long { limit < (D.seen desk.new).given ↔ IsErrOf result (ReadStop.TooLong limit) }
    ensures that_limit { (n : ℕ) → IsErrOf result (ReadStop.TooLong n) → n ≡ limit }
    ensures longer { (n : ℕ) → IsErrOf result (ReadStop.TooLong n) → (bytes : List ℕ)
        → (D.seen desk.old).tells ≡ true → (D.seen desk.old).files name.now ≡ Some bytes
        → limit < length bytes }
{
    let mut text = Vec::new(alloc);
    if desk.begin(name).is_err() {
        return Err(ReadStop::Failed);
    }
    let mut piece = [0u8; PIECE];
    loop {
        match desk.read(&mut piece) {
            Err(Failed) => return Err(ReadStop::Failed),
            Ok(0) => return Ok(text),
            Ok(count) => {
                if count > limit - text.len() {
                    return Err(ReadStop::TooLong { limit });
                }
                text.extend_from_slice(&piece[..count])?;
            }
        }
    }
}

/// Why a file was not written whole.
#[derive(Clone, Copy, Debug, PartialEq, Eq, Error)]
pub enum WriteStop {
    /// A call of the desk failed: the put of this number from 1, or 0 for the make.
    #[error("a call of the desk failed at put {put}")]
    Failed { put: u64 },
}

/// Makes a file hold a text. It takes no memory. After a failed put the file holds a prefix of the text,
/// of at least a byte for each put before; after a failed make it is as before or empty.
#[tactic(auto, using(crate::proofs::Desks::writing_trans, crate::proofs::Desks::put_keeps, crate::proofs::Desks::same_test_trans))]
pub fn write_whole<D: Desk>(desk: &mut D, name: &str, text: &[u8]) -> Result<(), WriteStop>
    requires { D.may_write desk.old name.now }
    ensures same { SameButWriting name.now (D.seen desk.old) (D.seen desk.new) }
    ensures names_read { SameTest (D.may_read desk.old) (D.may_read desk.new) }
    ensures names_written { SameTest (D.may_write desk.old) (D.may_write desk.new) }
    ensures made { (D.seen desk.new).makes ≡ after_one (D.seen desk.old).makes }
    ensures few { (D.seen desk.new).puts ≤ length text.now }
    ensures taken { (D.seen desk.old).tells ≡ true
        → (D.seen desk.new).taken ≡ (if (D.seen desk.new).is_open then Some name.now else None) }
    ensures ok { OnOk result
        ((D.seen desk.old).tells ≡ true → (D.seen desk.new).files name.now ≡ Some text.now) }
    ensures ok_open { OnOk result ((D.seen desk.new).is_open ≡ true) }
    ensures ok_faults { OnOk result
        ((D.seen desk.new).write_faults ≡ (D.seen desk.old).write_faults) }
    ensures err { (put : ℕ) → IsErrOf result (WriteStop.Failed put) → (D.seen desk.old).tells ≡ true
        → HoldsAfter text.now put ((D.seen desk.old).files name.now)
        ((D.seen desk.new).files name.now) }
    ensures err_puts { (put : ℕ) → IsErrOf result (WriteStop.Failed put)
        → (D.seen desk.new).puts ≡ put }
    ensures err_open { (put : ℕ) → IsErrOf result (WriteStop.Failed put)
        → ((D.seen desk.new).is_open ≡ true ↔ 0 < put) }
    ensures cause { OnErr result
        (Rose (D.seen desk.old).write_faults (D.seen desk.new).write_faults) }
{
    if desk.make(name).is_err() {
        return Err(WriteStop::Failed { put: 0 });
    }
    let mut at = 0;
    let mut put: u64 = 0;
    while at < text.len() {
        put += 1;
        match desk.put(&text[at..]) {
            Ok(count) => at += count,
            Err(Failed) => return Err(WriteStop::Failed { put }),
        }
    }
    Ok(())
}
