//! The desk of a case, and the words of its runs.
use crate::pieces::number_at;
use crate::setting::Setting;
use crate::texts::{Text, find};
use ice_base::{Name, number_of, words_of};
use ice_desk::{DeskCall, MemoryDesk};
use std::alloc::{AllocError, Global};
use std::str;

/// The text of a word; `''` is the empty one.
pub fn word_text(word: &[u8]) -> &str {
    if word == b"''".as_slice() {
        return "";
    }
    str::from_utf8(word).unwrap_or("")
}

// What stands between the words of two runs.
const THEN: &[u8] = b"then";

/// How many runs the words of a line behind its first ask for, one behind the other: none where the line is empty.
pub fn runs_in(line: &[u8]) -> u32 {
    let mut runs: u32 = 0;
    for word in words_of(line) {
        if runs == 0 || word == THEN {
            runs = runs.saturating_add(1);
        }
    }
    runs
}

/// The words of the run of this number, from 0, in a line.
pub fn words_of_run(alloc: Global, line: &[u8], number: u32) -> Result<Vec<String>, AllocError> {
    let mut words = Vec::new(alloc);
    let mut run: u32 = 0;
    for word in words_of(line).skip(1) {
        if word == THEN {
            run = run.saturating_add(1);
        } else if run == number {
            words.push(String::from_str(alloc, word_text(word))?)?;
        }
    }
    Ok(words)
}

// Adds the texts that words of a line name, as files.
fn add_files(
    alloc: Global,
    files: &mut Vec<(Name, Vec<u8>)>,
    line: &[u8],
    texts: &[Text<'_>],
) -> Result<(), AllocError> {
    for word in words_of(line).skip(1) {
        if let Some(bytes) = find(texts, word) {
            let name = Name::from_bytes(Vec::from_slice(alloc, word)?);
            files.push((name, Vec::from_slice(alloc, bytes)?))?;
        }
    }
    Ok(())
}

// The texts that words of all runs name, as files.
fn files_of(
    alloc: Global,
    case: &Setting<'_>,
    texts: &[Text<'_>],
) -> Result<Vec<(Name, Vec<u8>)>, AllocError> {
    let mut files = Vec::new(alloc);
    add_files(alloc, &mut files, case.words, texts)?;
    add_files(alloc, &mut files, case.then, texts)?;
    Ok(files)
}

// The kinds of calls by their words, but for that of saying.
const CALLS: [(&[u8], DeskCall); 4] = [
    (b"begin", DeskCall::Begin),
    (b"read", DeskCall::Read),
    (b"make", DeskCall::Make),
    (b"put", DeskCall::Put),
];

// The kind of call that a word names.
fn call_of(word: &[u8]) -> DeskCall {
    for (name, call) in &CALLS {
        if *name == word {
            return *call;
        }
    }
    DeskCall::Say
}

// The calls of a line: each number is that of a call of the kind before it.
fn calls_of(alloc: Global, line: &[u8]) -> Result<Vec<(DeskCall, u64)>, AllocError> {
    let mut calls = Vec::new(alloc);
    let mut kind = DeskCall::Say;
    for word in words_of(line).skip(1) {
        match number_of(word) {
            Some(number) => calls.push((kind, u64::from(number)))?,
            None => kind = call_of(word),
        }
    }
    Ok(calls)
}

/// The desk of a case.
pub fn desk_of(
    alloc: Global,
    case: &Setting<'_>,
    texts: &[Text<'_>],
) -> Result<MemoryDesk, AllocError> {
    let files = files_of(alloc, case, texts)?;
    let fails = calls_of(alloc, case.fails)?;
    let moves = number_at(case.moves, 1, 4096).max(1);
    Ok(MemoryDesk::new(alloc, files, moves as usize, fails))
}
