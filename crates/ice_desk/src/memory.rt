//! A desk in memory: files and standard output as lists of bytes, with calls that fail when asked to.
ghost use Rattle.std.specs.Prelude.{◌≡◌, ℕ, ◌+◌, ◌-◌, ◌^◌, ◌<◌, ◌≤◌, ◌++◌, ◌↔◌, ◌⊎◌, List, [], min, length, take, drop, true, false, Some, None, Option, IfOk, OnOk, OnErr, IsErr, is_ok};
ghost use Rattle.std.specs.Option.{option_map};
ghost use Rattle.ice_desk.specs.Desk.{Meaning};
ghost use Rattle.ice_desk.specs.Changes.{fresh, SameButReading, SameButWriting, SameButPutting, SameButSaying, SameTest, IsKeptOrEmpty, after_one, after_more, Rose};
ghost use Rattle.ice_desk.specs.Memory.{file_in, left_between, source_bytes, needed_files};

use crate::calls::{DeskCall, is_named};
use crate::files::{Source, append_to, bytes_of, empty_file, file_of, place_of};
use crate::{Desk, Failed};
use ice_base::{Name, name_of};
use std::alloc::Global;

/// A desk whose files are in memory. It moves at most `most` bytes in a call, and fails the calls that
/// it was asked to fail.
#[derive(Drop)]
pub struct MemoryDesk {
    alloc: Global,
    /// Names and bytes; the first file of a name counts.
    files: Vec<(Name, Vec<u8>)>,
    most: usize,
    fails: Vec<(DeskCall, u64)>,
    /// What is read, and between which places of it bytes are left.
    source: Source,
    at: usize,
    end: usize,
    taken: Option<Name>,
    said: Vec<u8>,
    given: u64,
    begins: u64,
    reads: u64,
    makes: u64,
    /// Since the last make, and in all.
    puts: u64,
    all_puts: u64,
    says: u64,
    is_open: bool,
    read_faults: u64,
    write_faults: u64,
    say_faults: u64,
    ghost some: { 1 ≤ most },
    ghost ordered: { at ≤ end },
    ghost needed: { needed_files source ≤ length files.items },
    ghost within: { end ≤ length (source_bytes files.items source) },
    ghost unbegun: { begins ≡ 0 → end ≡ 0 },
}

impl MemoryDesk {
    ghost use Rattle.ice_desk.specs.Plan.{seen_of, plan_of, fresh_plan};

    /// A desk with these files, of which the first of a name counts. It moves at most `most` bytes in a
    /// call and fails the calls of `fails`, each a kind and a number from 1 among the calls of that kind.
    /// Takes no memory.
    pub fn new(
        alloc: Global,
        files: Vec<(Name, Vec<u8>)>,
        most: usize,
        fails: Vec<(DeskCall, u64)>,
    ) -> MemoryDesk
        requires { 1 ≤ most }
        ensures seen { seen_of result ≡ fresh true (file_in files.items) }
        ensures plan { plan_of result ≡ fresh_plan most fails.items }
    {
        MemoryDesk {
            alloc,
            files,
            most,
            fails,
            source: Source::Nothing,
            at: 0,
            end: 0,
            taken: None,
            said: Vec::new(alloc),
            given: 0,
            begins: 0,
            reads: 0,
            makes: 0,
            puts: 0,
            all_puts: 0,
            says: 0,
            is_open: false,
            read_faults: 0,
            write_faults: 0,
            say_faults: 0,
        }
    }

    /// What the file of this name holds. Takes no memory.
    pub fn file(&self, name: &str) -> Option<&[u8]>
        ensures { option_map (λ bytes. bytes.now) result ≡ (seen_of self.now).files name.now }
    {
        file_of(self.files.as_slice(), name.as_bytes())
    }

    /// The bytes put to standard output. Takes no memory.
    pub fn said(&self) -> &[u8]
        ensures { result.now ≡ (seen_of self.now).said }
    {
        self.said.as_slice()
    }
}

impl Desk for MemoryDesk {
    ghost use Rattle.std.specs.Prelude.{◌≡◌, ℕ, ◌+◌, ◌-◌, ◌^◌, ◌<◌, ◌≤◌, ◌++◌, ◌↔◌, ◌⊎◌, List, [], min, length, take, drop, true, false, Some, None, Option, IfOk, OnOk, OnErr, IsErr, is_ok};
    ghost use Rattle.std.specs.Option.{option_map};
    ghost use Rattle.ice_desk.specs.Desk.{Meaning};
    ghost use Rattle.ice_desk.specs.Changes.{SameButReading, SameButWriting, SameButPutting, SameButSaying, SameTest, IsKeptOrEmpty, after_one, after_more, Rose};
    ghost use Rattle.ice_desk.specs.Plan.{seen_of, plan_of, after_call, IsNamed};

    ghost seen = { seen_of };

    ghost may_read = { λ d n. Unit {0} };

    ghost may_write = { λ d n. Unit {0} };

    /// Fails exactly where this call is named or the file is absent.
    #[tactic(auto, using(crate::proofs::FilesByName::whole_left, crate::proofs::FilesByName::place_needed, crate::proofs::FilesByName::place_length, crate::proofs::FilesByName::present))]
    fn begin(&mut self, name: &str) -> Result<(), Failed>
        ensures same { SameButReading (seen_of self.old) (seen_of self.new) }
        ensures begun { (seen_of self.new).begins ≡ after_one (seen_of self.old).begins }
        ensures given { (seen_of self.new).given ≡ 0 }
        ensures ok { OnOk result ((seen_of self.old).tells ≡ true
            → (seen_of self.old).files name.now ≡ Some (seen_of self.new).left) }
        ensures ok_faults { OnOk result
            ((seen_of self.new).read_faults ≡ (seen_of self.old).read_faults) }
        ensures err { OnErr result ((seen_of self.new).left ≡ []) }
        ensures cause { OnErr result
            (Rose (seen_of self.old).read_faults (seen_of self.new).read_faults) }
        ensures fails { IsErr result
            ↔ (IsNamed (plan_of self.old) DeskCall.Begin
            ⊎ ((seen_of self.old).files name.now ≡ None)) }
        ensures plan { plan_of self.new ≡ after_call (plan_of self.old) DeskCall.Begin }
    {
        self.begins = self.begins.saturating_add(1);
        self.given = 0;
        self.source = Source::Nothing;
        self.at = 0;
        self.end = 0;
        if is_named(self.fails.as_slice(), DeskCall::Begin, self.begins) {
            self.read_faults = self.read_faults.saturating_add(1);
            return Err(Failed);
        }
        let Some(place) = place_of(self.files.as_slice(), name.as_bytes()) else {
            self.read_faults = self.read_faults.saturating_add(1);
            return Err(Failed);
        };
        self.end = self.files[place].1.len();
        self.source = Source::File(place);
        Ok(())
    }

    /// Fails exactly where this call is named.
    fn read(&mut self, piece: &mut [u8]) -> Result<usize, Failed>
        ensures same { SameButReading (seen_of self.old) (seen_of self.new) }
        ensures begun { (seen_of self.new).begins ≡ (seen_of self.old).begins }
        ensures within { IfOk result (λ n. n ≤ length piece.new) }
        ensures bytes { IfOk result (λ n. (seen_of self.old).tells ≡ true
            → (seen_of self.old).left ≡ take n piece.new ++ (seen_of self.new).left) }
        ensures end { IfOk result (λ n. n ≡ 0 → 0 < length piece.new
            → (seen_of self.old).tells ≡ true → (seen_of self.old).left ≡ []) }
        ensures unbegun { IfOk result (λ n. (seen_of self.old).begins ≡ 0 → n ≡ 0) }
        ensures given { IfOk result (λ n.
            (seen_of self.new).given ≡ after_more (seen_of self.old).given n) }
        ensures ok_faults { OnOk result
            ((seen_of self.new).read_faults ≡ (seen_of self.old).read_faults) }
        ensures err { OnErr result (((seen_of self.new).left ≡ (seen_of self.old).left)
            × ((seen_of self.new).given ≡ (seen_of self.old).given)) }
        ensures cause { OnErr result
            (Rose (seen_of self.old).read_faults (seen_of self.new).read_faults) }
        ensures fails { IsErr result ↔ IsNamed (plan_of self.old) DeskCall.Read }
        ensures count { IfOk result (λ n. n ≡ min (min (length piece.new) (plan_of self.old).most)
            (length (seen_of self.old).left)) }
        ensures plan { plan_of self.new ≡ after_call (plan_of self.old) DeskCall.Read }
    {
        self.reads = self.reads.saturating_add(1);
        if is_named(self.fails.as_slice(), DeskCall::Read, self.reads) {
            self.read_faults = self.read_faults.saturating_add(1);
            return Err(Failed);
        }
        let bytes = bytes_of(self.files.as_slice(), &self.source);
        let count = piece.len().min(self.most).min(self.end - self.at);
        let next = self.at + count;
        piece[..count].copy_from_slice(&bytes[self.at..next]);
        self.at = next;
        self.given = self.given.saturating_add(count as u64);
        Ok(count)
    }

    /// Fails where this call is named, and maybe for want of memory.
    fn make(&mut self, name: &str) -> Result<(), Failed>
        ensures same { SameButWriting name.now (seen_of self.old) (seen_of self.new) }
        ensures made { (seen_of self.new).makes ≡ after_one (seen_of self.old).makes }
        ensures puts { (seen_of self.new).puts ≡ 0 }
        ensures opened { (seen_of self.new).is_open ≡ is_ok result }
        ensures ok { OnOk result
            ((seen_of self.old).tells ≡ true → (seen_of self.new).files name.now ≡ Some []) }
        ensures ok_taken { OnOk result
            ((seen_of self.old).tells ≡ true → (seen_of self.new).taken ≡ Some name.now) }
        ensures ok_faults { OnOk result
            ((seen_of self.new).write_faults ≡ (seen_of self.old).write_faults) }
        ensures err { OnErr result ((seen_of self.old).tells ≡ true → IsKeptOrEmpty
            ((seen_of self.old).files name.now) ((seen_of self.new).files name.now)) }
        ensures err_taken { OnErr result
            ((seen_of self.old).tells ≡ true → (seen_of self.new).taken ≡ None) }
        ensures cause { OnErr result
            (Rose (seen_of self.old).write_faults (seen_of self.new).write_faults) }
        ensures fails { IsNamed (plan_of self.old) DeskCall.Make → IsErr result }
        ensures plan { plan_of self.new ≡ after_call (plan_of self.old) DeskCall.Make }
    {
        self.makes = self.makes.saturating_add(1);
        self.puts = 0;
        self.is_open = false;
        self.taken = None;
        if is_named(self.fails.as_slice(), DeskCall::Make, self.makes) {
            self.write_faults = self.write_faults.saturating_add(1);
            return Err(Failed);
        }
        let Ok(taken) = name_of(self.alloc, name.as_bytes()) else {
            self.write_faults = self.write_faults.saturating_add(1);
            return Err(Failed);
        };
        if empty_file(
            self.alloc,
            &mut self.files,
            &mut self.source,
            name.as_bytes(),
        )
        .is_err()
        {
            self.write_faults = self.write_faults.saturating_add(1);
            return Err(Failed);
        }
        self.taken = Some(taken);
        self.is_open = true;
        Ok(())
    }

    /// Fails where this call is named, and maybe for want of memory.
    #[tactic(auto, using(crate::proofs::FilesByName::grown_length, crate::proofs::FilesByName::grown_left))]
    fn put(&mut self, piece: &[u8]) -> Result<usize, Failed>
        requires { (seen_of self.old).is_open ≡ true }
        ensures same { SameButPutting (seen_of self.old) (seen_of self.new) }
        ensures puts { (seen_of self.new).puts ≡ after_one (seen_of self.old).puts }
        ensures within { IfOk result (λ n.
            (n ≤ length piece.now) × (0 < length piece.now → 0 < n)) }
        ensures ok { IfOk result (λ n. (name bytes : List ℕ) → (seen_of self.old).tells ≡ true
            → (seen_of self.old).taken ≡ Some name → (seen_of self.old).files name ≡ Some bytes
            → (seen_of self.new).files name ≡ Some (bytes ++ take n piece.now)) }
        ensures ok_faults { OnOk result
            ((seen_of self.new).write_faults ≡ (seen_of self.old).write_faults) }
        ensures err { OnErr result ((seen_of self.old).tells ≡ true → (name : List ℕ)
            → (seen_of self.new).files name ≡ (seen_of self.old).files name) }
        ensures cause { OnErr result
            (Rose (seen_of self.old).write_faults (seen_of self.new).write_faults) }
        ensures fails { IsNamed (plan_of self.old) DeskCall.Put → IsErr result }
        ensures count { IfOk result (λ n. n ≡ min (length piece.now) (plan_of self.old).most) }
        ensures plan { plan_of self.new ≡ after_call (plan_of self.old) DeskCall.Put }
    {
        self.puts = self.puts.saturating_add(1);
        self.all_puts = self.all_puts.saturating_add(1);
        let count = piece.len().min(self.most);
        if is_named(self.fails.as_slice(), DeskCall::Put, self.all_puts) {
            self.write_faults = self.write_faults.saturating_add(1);
            return Err(Failed);
        }
        let Some(name) = &self.taken else {
            self.write_faults = self.write_faults.saturating_add(1);
            return Err(Failed);
        };
        let Some(place) = place_of(self.files.as_slice(), name.as_bytes()) else {
            self.write_faults = self.write_faults.saturating_add(1);
            return Err(Failed);
        };
        if append_to(&mut self.files, place, name.as_bytes(), &piece[..count]).is_err() {
            self.write_faults = self.write_faults.saturating_add(1);
            return Err(Failed);
        }
        Ok(count)
    }

    /// Fails where this call is named, and maybe for want of memory.
    fn say(&mut self, piece: &[u8]) -> Result<usize, Failed>
        ensures same { SameButSaying (seen_of self.old) (seen_of self.new) }
        ensures says { (seen_of self.new).says ≡ after_one (seen_of self.old).says }
        ensures within { IfOk result (λ n.
            (n ≤ length piece.now) × (0 < length piece.now → 0 < n)) }
        ensures ok { IfOk result (λ n. (seen_of self.old).tells ≡ true
            → (seen_of self.new).said ≡ (seen_of self.old).said ++ take n piece.now) }
        ensures ok_faults { OnOk result
            ((seen_of self.new).write_faults ≡ (seen_of self.old).write_faults) }
        ensures ok_say_faults { OnOk result
            ((seen_of self.new).say_faults ≡ (seen_of self.old).say_faults) }
        ensures err { OnErr result ((seen_of self.new).said ≡ (seen_of self.old).said) }
        ensures cause { OnErr result
            (Rose (seen_of self.old).write_faults (seen_of self.new).write_faults) }
        ensures say_cause { OnErr result
            (Rose (seen_of self.old).say_faults (seen_of self.new).say_faults) }
        ensures fails { IsNamed (plan_of self.old) DeskCall.Say → IsErr result }
        ensures count { IfOk result (λ n. n ≡ min (length piece.now) (plan_of self.old).most) }
        ensures plan { plan_of self.new ≡ after_call (plan_of self.old) DeskCall.Say }
    {
        self.says = self.says.saturating_add(1);
        let count = piece.len().min(self.most);
        if is_named(self.fails.as_slice(), DeskCall::Say, self.says)
            || self.said.extend_from_slice(&piece[..count]).is_err()
        {
            self.write_faults = self.write_faults.saturating_add(1);
            self.say_faults = self.say_faults.saturating_add(1);
            return Err(Failed);
        }
        Ok(count)
    }
}
