//! The words of a line before its comment.
ghost use Rattle.std.specs.Prelude.{◌≡◌};
ghost use Rattle.ice_base.specs.Text.{words, uncommented, begins_with};

use crate::{WordIter, no_words, words_of};
use std::marker::Model;

/// The words of a line that are left before its comment. Contracts see it as the list of them.
#[derive(Drop)]
pub struct PlainWords<'a> {
    words: WordIter<'a>,
}

impl<'a> Model for PlainWords<'a> {
    ghost use Rattle.std.specs.Prelude.{List, ℕ};
    ghost use Rattle.ice_base.specs.Text.{uncommented};

    ghost Value = { List (List ℕ) };

    ghost view = { λ left. uncommented left.words };
}

/// The words of a line in order, before the first that begins with `#`.
pub fn plain_words_of(line: &[u8]) -> PlainWords<'_>
    ensures { result ≡ uncommented (words line.now) }
{
    PlainWords {
        words: words_of(line),
    }
}

/// Whether the first byte of a word is this one.
pub fn begins_with(byte: u8, word: &[u8]) -> bool
    ensures { result ≡ begins_with byte word.now }
{
    match word {
        [] => false,
        [first, ..] => *first == byte,
    }
}

impl<'a> Iterator for PlainWords<'a> {
    ghost use Rattle.std.specs.Iterator.{YieldsFirstBy, item_count};

    type Item = &'a [u8];

    ghost next_gives = { YieldsFirstBy (λ word. word.now) (λ left. left) };

    ghost remaining = { item_count (λ left. left) };

    fn next(&mut self) -> Option<&'a [u8]> {
        let word = self.words.next()?;
        if begins_with(b'#', word) {
            self.words = no_words();
            return None;
        }
        Some(word)
    }
}
