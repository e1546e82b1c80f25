//! Desks: what a program sees of files and of its standard output, and what each call may change.
ghost use Rattle.std.specs.Prelude.{◌≡◌, ℕ, ◌<◌, ◌≤◌, ◌++◌, List, [], length, take, true, false, Some, None, IfOk, OnOk, OnErr, is_ok};
ghost use Rattle.ice_desk.specs.Desk.{Meaning};
ghost use Rattle.ice_desk.specs.Changes.{SameButReading, SameButWriting, SameButPutting, SameButSaying, SameTest, IsKeptOrEmpty, after_one, after_more, Rose};

use thiserror::Error;

/// A call of a desk failed. Its fault is counted.
#[derive(Clone, Copy, Debug, PartialEq, Eq, Error)]
#[error("a call of the desk failed")]
pub struct Failed;

/// The files and the standard output of a program. What a call is not said to change stays as it was.
pub trait Desk {
    /// What is seen of the desk.
    ghost seen: { Self → Meaning };

    /// The names that may be read.
    ghost may_read: { Self → List ℕ → Type 0 };

    /// The names that may be written.
    ghost may_write: { Self → List ℕ → Type 0 };

    /// Takes a file for reading from its start. An absent file is a fault. After a failure nothing is
    /// left to read.
    fn begin(&mut self, name: &str) -> Result<(), Failed>
        requires { may_read self.old name.now }
        ensures same { SameButReading (seen self.old) (seen self.new) }
        ensures names_read { SameTest (may_read self.old) (may_read self.new) }
        ensures names_written { SameTest (may_write self.old) (may_write self.new) }
        ensures begun { (seen self.new).begins ≡ after_one (seen self.old).begins }
        ensures given { (seen self.new).given ≡ 0 }
        ensures ok { OnOk result ((seen self.old).tells ≡ true
            → (seen self.old).files name.now ≡ Some (seen self.new).left) }
        ensures ok_faults { OnOk result
            ((seen self.new).read_faults ≡ (seen self.old).read_faults) }
        ensures err { OnErr result ((seen self.new).left ≡ []) }
        ensures cause { OnErr result
            (Rose (seen self.old).read_faults (seen self.new).read_faults) };

    /// The next bytes of the begun file, at the start of the piece, and how many they are. None of them,
    /// for a piece that isn't empty, is the end. A read with nothing begun gives none.
    fn read(&mut self, piece: &mut [u8]) -> Result<usize, Failed>
        ensures same { SameButReading (seen self.old) (seen self.new) }
        ensures names_read { SameTest (may_read self.old) (may_read self.new) }
        ensures names_written { SameTest (may_write self.old) (may_write self.new) }
        ensures begun { (seen self.new).begins ≡ (seen self.old).begins }
        ensures within { IfOk result (λ n. n ≤ length piece.new) }
        ensures bytes { IfOk result (λ n. (seen self.old).tells ≡ true
            → (seen self.old).left ≡ take n piece.new ++ (seen self.new).left) }
        ensures end { IfOk result (λ n. n ≡ 0 → 0 < length piece.new → (seen self.old).tells ≡ true
            → (seen self.old).left ≡ []) }
        ensures unbegun { IfOk result (λ n. (seen self.old).begins ≡ 0 → n ≡ 0) }
        ensures given { IfOk result (λ n.
            (seen self.new).given ≡ after_more (seen self.old).given n) }
        ensures ok_faults { OnOk result
            ((seen self.new).read_faults ≡ (seen self.old).read_faults) }
        ensures err { OnErr result (((seen self.new).left ≡ (seen self.old).left)
            × ((seen self.new).given ≡ (seen self.old).given)) }
        ensures cause { OnErr result
            (Rose (seen self.old).read_faults (seen self.new).read_faults) };

    /// Empties a file, or makes it, and takes it for writing. After a failure no file is taken, and the
    /// named one is as before or empty.
    fn make(&mut self, name: &str) -> Result<(), Failed>
        requires { may_write self.old name.now }
        ensures same { SameButWriting name.now (seen self.old) (seen self.new) }
        ensures names_read { SameTest (may_read self.old) (may_read self.new) }
        ensures names_written { SameTest (may_write self.old) (may_write self.new) }
        ensures made { (seen self.new).makes ≡ after_one (seen self.old).makes }
        ensures puts { (seen self.new).puts ≡ 0 }
        ensures opened { (seen self.new).is_open ≡ is_ok result }
        ensures ok { OnOk result
            ((seen self.old).tells ≡ true → (seen self.new).files name.now ≡ Some []) }
        ensures ok_taken { OnOk result
            ((seen self.old).tells ≡ true → (seen self.new).taken ≡ Some name.now) }
        ensures ok_faults { OnOk result
            ((seen self.new).write_faults ≡ (seen self.old).write_faults) }
        ensures err { OnErr result ((seen self.old).tells ≡ true
            → IsKeptOrEmpty ((seen self.old).files name.now) ((seen self.new).files name.now)) }
        ensures err_taken { OnErr result
            ((seen self.old).tells ≡ true → (seen self.new).taken ≡ None) }
        ensures cause { OnErr result
            (Rose (seen self.old).write_faults (seen self.new).write_faults) };

    /// Puts bytes of the piece's start behind those of the file that is taken, and tells how many: at
    /// least one of a piece that isn't empty.
    fn put(&mut self, piece: &[u8]) -> Result<usize, Failed>
        requires { (seen self.old).is_open ≡ true }
        ensures same { SameButPutting (seen self.old) (seen self.new) }
        ensures names_read { SameTest (may_read self.old) (may_read self.new) }
        ensures names_written { SameTest (may_write self.old) (may_write self.new) }
        ensures puts { (seen self.new).puts ≡ after_one (seen self.old).puts }
        ensures within { IfOk result (λ n.
            (n ≤ length piece.now) × (0 < length piece.now → 0 < n)) }
        ensures ok { IfOk result (λ n. (name bytes : List ℕ) → (seen self.old).tells ≡ true
            → (seen self.old).taken ≡ Some name → (seen self.old).files name ≡ Some bytes
            → (seen self.new).files name ≡ Some (bytes ++ take n piece.now)) }
        ensures ok_faults { OnOk result
            ((seen self.new).write_faults ≡ (seen self.old).write_faults) }
        ensures err { OnErr result ((seen self.old).tells ≡ true → (name : List ℕ)
            → (seen self.new).files name ≡ (seen self.old).files name) }
        ensures cause { OnErr result
            (Rose (seen self.old).write_faults (seen self.new).write_faults) };

    /// Puts bytes of the piece's start to the standard output, and tells how many: at least one of a
    /// piece that isn't empty.
    fn say(&mut self, piece: &[u8]) -> Result<usize, Failed>
        ensures same { SameButSaying (seen self.old) (seen self.new) }
        ensures names_read { SameTest (may_read self.old) (may_read self.new) }
        ensures names_written { SameTest (may_write self.old) (may_write self.new) }
        ensures says { (seen self.new).says ≡ after_one (seen self.old).says }
        ensures within { IfOk result (λ n.
            (n ≤ length piece.now) × (0 < length piece.now → 0 < n)) }
        ensures ok { IfOk result (λ n. (seen self.old).tells ≡ true
            → (seen self.new).said ≡ (seen self.old).said ++ take n piece.now) }
        ensures ok_faults { OnOk result
            ((seen self.new).write_faults ≡ (seen self.old).write_faults) }
        ensures ok_say_faults { OnOk result
            ((seen self.new).say_faults ≡ (seen self.old).say_faults) }
        ensures err { OnErr result ((seen self.new).said ≡ (seen self.old).said) }
        ensures cause { OnErr result
            (Rose (seen self.old).write_faults (seen self.new).write_faults) }
        ensures say_cause { OnErr result
            (Rose (seen self.old).say_faults (seen self.new).say_faults) };
}
