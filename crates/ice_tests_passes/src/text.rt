//! The text that is shown of a case.
use std::alloc::Global;
use std::fmt::Display;
use std::io::Write;

/// The text that is shown of a case, as far as there was memory for it.
#[derive(Drop)]
pub struct Text {
    /// The bytes that were said.
    pub bytes: Vec<u8>,
    // Whether some are missing for want of memory.
    is_short: bool,
}

impl Text {
    /// An empty text.
    pub fn new(alloc: Global) -> Text {
        Text {
            bytes: Vec::new(alloc),
            is_short: false,
        }
    }

    /// Says bytes.
    pub fn say(&mut self, bytes: &[u8]) {
        self.is_short |= self.bytes.extend_from_slice(bytes).is_err();
    }

    /// Says a value as it is displayed.
    pub fn show<D: Display + Drop>(&mut self, value: D) {
        self.is_short |= write!(self.bytes, "{value}").is_err();
    }

    /// Says a number behind words.
    pub fn count<N: Display + Drop>(&mut self, words: &[u8], number: N) {
        self.say(words);
        self.show(number);
    }

    /// Whether no bytes are missing for want of memory.
    pub fn is_whole(&self) -> bool {
        !self.is_short
    }
}
