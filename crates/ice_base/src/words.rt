//! The words of a text.
ghost use Rattle.std.specs.Prelude.{◌≡◌, ◌<◌, ◌∷◌, [], length};
ghost use Rattle.ice_base.specs.Text.{words, ends_word};
ghost use Rattle.ice_base.specs.Lines.{StartsWord};

use std::marker::Model;

/// The words that are left of a text. Contracts see it as the list of them.
#[derive(Drop)]
pub struct WordIter<'a> {
    rest: &'a [u8],
}

impl<'a> Model for WordIter<'a> {
    ghost use Rattle.std.specs.Prelude.{List, ℕ};
    ghost use Rattle.ice_base.specs.Text.{words};

    ghost Value = { List (List ℕ) };

    ghost view = { λ left. words left.rest.now };
}

/// The words of all lines of a text in order. A word is a longest piece of a line without blanks, which are
/// space, tab and carriage return alone. The words of comments are among them.
pub fn words_of(text: &[u8]) -> WordIter<'_>
    ensures { result ≡ words text.now }
{
    WordIter { rest: text }
}

/// No words.
#[tactic(auto, using(crate::proofs::Cuts::no_word_left))]
pub fn no_words<'a>() -> WordIter<'a>
    ensures { result ≡ [] }
{
    WordIter { rest: &[] }
}

fn ends_word(b: u8) -> bool
    ensures { result ≡ ends_word b }
{
    b == b' ' || b == b'\t' || b == b'\r' || b == b'\n'
}

// What is left behind the blanks and line feeds at the front.
#[tactic(auto, using(crate::proofs::Cuts::break_is_passed, crate::proofs::Cuts::word_starts, crate::proofs::Cuts::nothing_left, crate::proofs::Cuts::tail_is))]
fn skip_breaks(text: &[u8]) -> &[u8]
    ensures same { words result.now ≡ words text.now }
    ensures start { StartsWord result.now }
{
    for (i, b) in text.iter().enumerate() {
        if !ends_word(*b) {
            return &text[i..];
        }
    }
    &[]
}

// The word at the front, and what is behind it.
#[tactic(auto, using(crate::proofs::Cuts::word_goes_on, crate::proofs::Cuts::word_is_cut, crate::proofs::Cuts::word_end))]
fn cut_word(text: &[u8]) -> (&[u8], &[u8])
    requires some { 0 < length text.now }
    requires start { StartsWord text.now }
    ensures { words text.now ≡ result.0.now ∷ words result.1.now }
{
    for (i, b) in text.iter().enumerate() {
        if ends_word(*b) {
            return (&text[..i], &text[i..]);
        }
    }
    (text, &[])
}

impl<'a> Iterator for WordIter<'a> {
    ghost use Rattle.std.specs.Iterator.{YieldsFirstBy, item_count};

    type Item = &'a [u8];

    ghost next_gives = { YieldsFirstBy (λ word. word.now) (λ left. left) };

    ghost remaining = { item_count (λ left. left) };

    #[tactic(auto, using(crate::proofs::Cuts::no_word_left))]
    fn next(&mut self) -> Option<&'a [u8]> {
        let text = skip_breaks(self.rest);
        if text.is_empty() {
            self.rest = text;
            return None;
        }
        let (word, rest) = cut_word(text);
        self.rest = rest;
        Some(word)
    }
}
