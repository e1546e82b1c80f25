//! What is told of a case: lines of texts and files, numbers, and its gate.
use crate::desk::word_text;
use crate::pieces::word_at;
use crate::setting::{CaseGate, Setting};
use ice_base::{lines_of, words_of};
use ice_desk::MemoryDesk;
use itoa::Buffer;
use std::alloc::AllocError;

// Adds a line behind a mark.
fn add_line(out: &mut Vec<u8>, mark: u8, line: &[u8]) -> Result<(), AllocError> {
    out.push(mark)?;
    out.extend_from_slice(line)?;
    out.push(b'\n')?;
    Ok(())
}

/// Adds the lines of a text, each behind a mark: `|`, and `\` where a last line has no line feed.
pub fn add_lines(out: &mut Vec<u8>, text: &[u8]) -> Result<(), AllocError> {
    let whole = text.ends_with(b"\n");
    let mut count: usize = 0;
    for line in lines_of(text) {
        count = count.saturating_add(line.text.len()).saturating_add(1);
        let mark = if whole || count <= text.len() {
            b'|'
        } else {
            b'\\'
        };
        add_line(out, mark, line.text)?;
    }
    Ok(())
}

// Adds what a file holds.
fn add_file(out: &mut Vec<u8>, desk: &MemoryDesk, name: &[u8]) -> Result<(), AllocError> {
    out.extend_from_slice(b"file ")?;
    out.extend_from_slice(name)?;
    match desk.file(word_text(name)) {
        Some(bytes) => {
            out.extend_from_slice(b"\n")?;
            add_lines(out, bytes)
        }
        None => out.extend_from_slice(b" is absent\n"),
    }
}

// Whether a line begins with a word that is asked for.
fn is_found(line: &[u8], finds: &[u8]) -> bool {
    for word in words_of(finds).skip(2) {
        if line.starts_with(word) {
            return true;
        }
    }
    false
}

// Adds the lines of a file that are asked for.
fn add_found(out: &mut Vec<u8>, desk: &MemoryDesk, finds: &[u8]) -> Result<(), AllocError> {
    let name = word_at(finds, 1);
    let Some(bytes) = desk.file(word_text(name)) else {
        return add_file(out, desk, name);
    };
    out.extend_from_slice(b"lines of ")?;
    out.extend_from_slice(name)?;
    out.push(b'\n')?;
    for line in lines_of(bytes) {
        if is_found(line.text, finds) {
            add_line(out, b'|', line.text)?;
        }
    }
    Ok(())
}

/// Adds the number of a run's case, its status, or how often its gate was passed.
pub fn add_number(out: &mut Vec<u8>, before: &[u8], number: u64) -> Result<(), AllocError> {
    out.extend_from_slice(before)?;
    out.extend_from_slice(Buffer::new().format(number).as_bytes())?;
    Ok(())
}

/// Adds the files that a case shows, and the lines that it asks for.
pub fn add_shown(
    out: &mut Vec<u8>,
    case: &Setting<'_>,
    desk: &MemoryDesk,
) -> Result<(), AllocError> {
    for name in words_of(case.shows).skip(1) {
        add_file(out, desk, name)?;
    }
    if !case.finds.is_empty() {
        add_found(out, desk, case.finds)?;
    }
    Ok(())
}

/// Adds how often a gate at which two workers meet was passed, and whether two met.
pub fn add_meeting(out: &mut Vec<u8>, gate: &CaseGate) -> Result<(), AllocError> {
    let CaseGate::Meeting(gate) = gate else {
        return Ok(());
    };
    add_number(out, b"gate passed ", gate.passes())?;
    out.extend_from_slice(if gate.met() {
        b", two workers met\n"
    } else {
        b", nobody met\n"
    })
}
