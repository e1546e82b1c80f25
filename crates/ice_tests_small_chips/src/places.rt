//! Words, numbers and lines of texts by their places.
use ice_base::{lines_of, number_of, words_of};

/// How many words a text has.
pub fn count_words(text: &[u8]) -> usize {
    let mut count: usize = 0;
    for _ in words_of(text) {
        count = count.saturating_add(1);
    }
    count
}

/// The word at a place of a text, or no byte where none is.
pub fn word_at(text: &[u8], place: usize) -> &[u8] {
    let mut left = place;
    for word in words_of(text) {
        if left == 0 {
            return word;
        }
        left -= 1;
    }
    &[]
}

/// The number that is the word at a place of a text, or 0 where none is.
pub fn number_at(text: &[u8], place: usize) -> u32 {
    number_of(word_at(text, place)).unwrap_or(0)
}

/// The line at a place of a text, or no byte where none is.
pub fn line_at(text: &[u8], place: usize) -> &[u8] {
    let mut left = place;
    for line in lines_of(text) {
        if left == 0 {
            return line.text;
        }
        left -= 1;
    }
    &[]
}

/// Whether this is the first word of a text.
pub fn begins(text: &[u8], word: &[u8]) -> bool {
    match words_of(text).next() {
        Some(first) => first == word,
        None => false,
    }
}

/// How many lines a text has.
pub fn count_lines(text: &[u8]) -> usize {
    let mut count: usize = 0;
    for _ in lines_of(text) {
        count = count.saturating_add(1);
    }
    count
}
