//! The files of a desk in memory, a list that is searched by name, and where the begun one is read.
ghost use Rattle.std.specs.Prelude.{◌≡◌, ◌≢◌, ◌<◌, ◌≤◌, ◌++◌, List, [], ℕ, length, None, Some, IfSome, IfNone, IfOk, OnOk, OnErr};
ghost use Rattle.std.specs.Option.{option_map};
ghost use Rattle.ice_desk.specs.Memory.{Named, place_from, file_in, bytes_at, source_bytes, needed_files, IsPlace, Grew};

use ice_base::{Name, NoMemory, name_of};
use std::alloc::Global;
use std::mem;

/// Where the bytes of the begun file are.
#[derive(Drop)]
pub enum Source {
    /// No file is begun.
    Nothing,
    /// In the file at this place.
    File(usize),
    /// Here: the file was made again since.
    Moved(Vec<u8>),
}

/// The bytes of a source.
#[tactic(auto, using(crate::proofs::FilesByName::source_at))]
pub fn bytes_of<'a>(files: &'a [(Name, Vec<u8>)], source: &'a Source) -> &'a [u8]
    requires { needed_files source.now ≤ length files.now }
    ensures { result.now ≡ source_bytes files.now source.now }
{
    match source {
        Source::Nothing => &[],
        Source::File(place) => files[*place].1.as_slice(),
        Source::Moved(bytes) => bytes.as_slice(),
    }
}

/// The place of the first file of a name.
#[tactic(auto, using(crate::proofs::FilesByName::placed_0, crate::proofs::FilesByName::not_placed, crate::proofs::FilesByName::place_within))]
pub fn place_of(files: &[(Name, Vec<u8>)], name: &[u8]) -> Option<usize>
    ensures some { IfSome result (λ i. IsPlace name.now files.now i) }
    ensures within { IfSome result (λ i. i < length files.now) }
    ensures none { IfNone result (file_in files.now name.now ≡ None) }
{
    for (i, file) in files.iter().enumerate() {
        if file.0.as_bytes() == name {
            return Some(i);
        }
    }
    None
}

/// What the first file of a name holds.
#[tactic(auto, using(crate::proofs::FilesByName::place_file))]
pub fn file_of<'a>(files: &'a [(Name, Vec<u8>)], name: &[u8]) -> Option<&'a [u8]>
    ensures { option_map (λ bytes. bytes.now) result ≡ file_in files.now name.now }
{
    let i = place_of(files, name)?;
    Some(files[i].1.as_slice())
}

/// Takes the bytes out of the file at a place.
#[tactic(auto, using(crate::proofs::FilesByName::set_at, crate::proofs::FilesByName::set_other, crate::proofs::FilesByName::still_named, crate::proofs::FilesByName::at_here, crate::proofs::FilesByName::set_elsewhere))]
fn take_bytes(alloc: Global, files: &mut Vec<(Name, Vec<u8>)>, place: usize, name: &[u8]) -> Vec<u8>
    requires within { place < length files.old.items }
    requires named { IsPlace name.now files.old.items place }
    ensures bytes { result.items ≡ bytes_at files.old.items place }
    ensures count { length files.new.items ≡ length files.old.items }
    ensures emptied { file_in files.new.items name.now ≡ Some [] }
    ensures others { (n : List ℕ) → n ≢ name.now
        → file_in files.new.items n ≡ file_in files.old.items n }
    ensures elsewhere { (k : ℕ) → k ≢ place
        → bytes_at files.new.items k ≡ bytes_at files.old.items k }
{
    let file = &mut files[place];
    mem::replace(&mut file.1, Vec::new(alloc))
}

/// Goes on with these bytes, where the source is the file at this place, whose bytes they were.
fn keep_reading(source: &mut Source, place: usize, bytes: Vec<u8>)
    ensures needed { needed_files source.new ≤ needed_files source.old }
    ensures kept { (before now : List Named) → bytes.items ≡ bytes_at before place
        → ((k : ℕ) → k ≢ place → bytes_at now k ≡ bytes_at before k)
        → source_bytes now source.new ≡ source_bytes before source.old }
{
    if let Source::File(read) = source {
        if *read == place {
            *source = Source::Moved(bytes);
        }
    }
}

/// Empties the first file of a name, or makes one. What is read goes on as before.
#[tactic(auto, using(crate::proofs::FilesByName::push_source))]
pub fn empty_file(
    alloc: Global,
    files: &mut Vec<(Name, Vec<u8>)>,
    source: &mut Source,
    name: &[u8],
) -> Result<(), NoMemory>
    requires { needed_files source.old ≤ length files.old.items }
    ensures needed { needed_files source.new ≤ length files.new.items }
    ensures kept { source_bytes files.new.items source.new
        ≡ source_bytes files.old.items source.old }
    ensures ok { OnOk result (file_in files.new.items name.now ≡ Some []) }
    ensures others { (n : List ℕ) → n ≢ name.now
        → file_in files.new.items n ≡ file_in files.old.items n }
    ensures existing { OnErr result (file_in files.old.items name.now ≡ None) }
    ensures err { OnErr result (files.new.items ≡ files.old.items) }
{
    match place_of(files, name) {
        Some(place) => {
            let bytes = take_bytes(alloc, files, place, name);
            keep_reading(source, place, bytes);
            Ok(())
        }
        None => push_empty(alloc, files, name),
    }
}

/// Adds an empty file of a new name.
#[tactic(auto, using(crate::proofs::FilesByName::push_empty_at, crate::proofs::FilesByName::push_empty_other, crate::proofs::FilesByName::push_bytes))]
fn push_empty(alloc: Global, files: &mut Vec<(Name, Vec<u8>)>, name: &[u8]) -> Result<(), NoMemory>
    requires { file_in files.old.items name.now ≡ None }
    ensures count { length files.old.items ≤ length files.new.items }
    ensures kept { (k : ℕ) → k < length files.old.items
        → bytes_at files.new.items k ≡ bytes_at files.old.items k }
    ensures ok { OnOk result (file_in files.new.items name.now ≡ Some []) }
    ensures others { (n : List ℕ) → n ≢ name.now
        → file_in files.new.items n ≡ file_in files.old.items n }
    ensures err { OnErr result (files.new.items ≡ files.old.items) }
{
    let name = name_of(alloc, name)?;
    if files.push((name, Vec::new(alloc))).is_err() {
        return Err(NoMemory);
    }
    Ok(())
}

/// Puts bytes behind those of the file at a place, which is the first of this name.
#[tactic(auto, using(crate::proofs::FilesByName::set_at, crate::proofs::FilesByName::set_other, crate::proofs::FilesByName::place_file, crate::proofs::FilesByName::still_named, crate::proofs::FilesByName::set_alike, crate::proofs::FilesByName::set_grown))]
pub fn append_to(
    files: &mut Vec<(Name, Vec<u8>)>,
    place: usize,
    name: &[u8],
    piece: &[u8],
) -> Result<(), NoMemory>
    requires within { place < length files.old.items }
    requires named { IsPlace name.now files.old.items place }
    ensures count { length files.new.items ≡ length files.old.items }
    ensures grown { Grew files.old.items files.new.items }
    ensures ok { OnOk result ((bytes : List ℕ) → file_in files.old.items name.now ≡ Some bytes
        → file_in files.new.items name.now ≡ Some (bytes ++ piece.now)) }
    ensures others { (n : List ℕ) → n ≢ name.now
        → file_in files.new.items n ≡ file_in files.old.items n }
    ensures err { OnErr result
        ((n : List ℕ) → file_in files.new.items n ≡ file_in files.old.items n) }
{
    let file = &mut files[place];
    match file.1.extend_from_slice(piece) {
        Ok(()) => Ok(()),
        Err(_) => Err(NoMemory),
    }
}
