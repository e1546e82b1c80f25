//! The pieces of a text: lines, bytes, bytes many times, and lines of other texts.
use crate::texts::{Text, text_of};
use ice_base::{NoMemory, lines_of, number_of, words_of};
use ice_sample::{sample_chip, sample_net};
use itoa::Buffer;
use std::alloc::{AllocError, Global};

/// The pieces that a line adds by its first word.
#[derive(Clone, Copy)]
pub enum Piece {
    /// The lines up to a number.
    Until,
    /// Another text, so many times.
    Copy,
    /// A sample chip.
    Sample,
    /// A sample netlist.
    Netlist,
}

/// A text that is made. It follows another one, whose lines from `next` on are still to come.
#[derive(Drop)]
pub struct Draft<'a> {
    /// The name of the text.
    pub name: &'a [u8],
    /// The name of the text that is followed.
    pub base: &'a [u8],
    /// The number of the next line of that text.
    pub next: u32,
    /// What is made so far.
    pub bytes: Vec<u8>,
}

/// The word at a place of a line, or no byte where none is.
pub fn word_at(line: &[u8], place: usize) -> &[u8] {
    let mut left = place;
    for word in words_of(line) {
        if left == 0 {
            return word;
        }
        left -= 1;
    }
    &[]
}

/// The number at a place of a line, or this one where none is.
pub fn number_at(line: &[u8], place: usize, otherwise: u32) -> u32 {
    number_of(word_at(line, place)).unwrap_or(otherwise)
}

// Adds the lines of a text from the first number to the last.
fn add_lines_between(
    bytes: &mut Vec<u8>,
    text: &[u8],
    first: u32,
    last: u32,
) -> Result<(), AllocError> {
    for line in lines_of(text) {
        if first <= line.number && line.number <= last {
            bytes.extend_from_slice(line.text)?;
            bytes.push(b'\n')?;
        }
    }
    Ok(())
}

// The byte that stands for an escaped one.
fn unescaped(byte: u8) -> u8 {
    match byte {
        b'n' => b'\n',
        b'r' => b'\r',
        b't' => b'\t',
        _ => byte,
    }
}

// Adds a text of escapes, with a number in place of each `@`.
fn add_escaped(bytes: &mut Vec<u8>, text: &[u8], number: u32) -> Result<(), AllocError> {
    let mut escaped = false;
    for byte in text {
        if escaped {
            bytes.push(unescaped(*byte))?;
            escaped = false;
        } else if *byte == b'\\' {
            escaped = true;
        } else if *byte == b'@' {
            bytes.extend_from_slice(Buffer::new().format(number).as_bytes())?;
        } else {
            bytes.push(*byte)?;
        }
    }
    Ok(())
}

// Adds a text so many times.
fn add_times(bytes: &mut Vec<u8>, text: &[u8], times: u32) -> Result<(), AllocError> {
    for _ in 0..times {
        bytes.extend_from_slice(text)?;
    }
    Ok(())
}

impl<'a> Draft<'a> {
    /// A text of this name that follows the other one.
    pub fn new(alloc: Global, name: &'a [u8], base: &'a [u8]) -> Draft<'a> {
        Draft {
            name,
            base,
            next: 1,
            bytes: Vec::new(alloc),
        }
    }

    /// Adds the lines of the text that is followed, up to this one.
    pub fn follow_to(&mut self, texts: &[Text<'_>], last: u32) -> Result<(), AllocError> {
        add_lines_between(&mut self.bytes, text_of(texts, self.base), self.next, last)
    }

    /// Adds what a line of a number, a mark and a text says. Whether it is one.
    pub fn add_marked(&mut self, texts: &[Text<'_>], line: &[u8]) -> Result<bool, AllocError> {
        for (place, mark) in line.iter().enumerate() {
            if !mark.is_ascii_digit() {
                let number = number_of(&line[..place]);
                return self.add_piece(texts, number, *mark, &line[place + 1..]);
            }
        }
        Ok(false)
    }

    // Adds a text behind its number and mark. Whether the mark is one.
    fn add_piece(
        &mut self,
        texts: &[Text<'_>],
        number: Option<u32>,
        mark: u8,
        text: &[u8],
    ) -> Result<bool, AllocError> {
        if mark == b'*' {
            for time in 0..number.unwrap_or(0) {
                add_escaped(&mut self.bytes, text, time)?;
            }
            return Ok(true);
        }
        if mark != b'|' && mark != b'\\' {
            return Ok(false);
        }
        if let Some(place) = number {
            self.follow_to(texts, place.saturating_sub(1))?;
            self.next = place.saturating_add(1);
        }
        self.add_text(mark, text)?;
        Ok(true)
    }

    // Adds a line as it stands, or a text of escapes.
    fn add_text(&mut self, mark: u8, text: &[u8]) -> Result<(), AllocError> {
        if mark == b'\\' {
            return add_escaped(&mut self.bytes, text, 0);
        }
        self.bytes.extend_from_slice(text)?;
        self.bytes.push(b'\n')?;
        Ok(())
    }

    /// Adds the piece that a line says.
    pub fn add(
        &mut self,
        alloc: Global,
        texts: &[Text<'_>],
        piece: Piece,
        line: &[u8],
    ) -> Result<(), NoMemory> {
        match piece {
            Piece::Until => self.until(texts, line),
            Piece::Copy => self.copy(texts, line),
            Piece::Sample => self.sample(alloc, line),
            Piece::Netlist => self.netlist(line),
        }
    }

    // Adds the lines up to the number of a line, and no later ones.
    fn until(&mut self, texts: &[Text<'_>], line: &[u8]) -> Result<(), NoMemory> {
        self.follow_to(texts, number_at(line, 1, 0))?;
        self.base = &[];
        Ok(())
    }

    // Adds the text that a line names, so many times.
    fn copy(&mut self, texts: &[Text<'_>], line: &[u8]) -> Result<(), NoMemory> {
        let text = text_of(texts, word_at(line, 1));
        add_times(&mut self.bytes, text, number_at(line, 2, 1))?;
        Ok(())
    }

    // Adds the text of the sample chip of the size that a line names.
    fn sample(&mut self, alloc: Global, line: &[u8]) -> Result<(), NoMemory> {
        let width = number_at(line, 1, 0).clamp(4, 64) as u16;
        let height = number_at(line, 2, 0).clamp(4, 64) as u16;
        sample_chip(alloc, width, height, &mut self.bytes)
    }

    // Adds the text of the sample netlist of the number and the cells that a line names.
    fn netlist(&mut self, line: &[u8]) -> Result<(), NoMemory> {
        let number = u64::from(number_at(line, 1, 0));
        sample_net(number, number_at(line, 2, 1), &mut self.bytes)
    }
}
