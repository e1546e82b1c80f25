//! The lines of a text, with their numbers.
ghost use Rattle.std.specs.Prelude.{◌≡◌, ◌<◌, ◌∷◌, length};
ghost use Rattle.ice_base.specs.Text.{lines, numbered};

use std::marker::Model;

/// A line of a text, without its line feed.
#[derive(Clone, Copy)]
pub struct Line<'a> {
    /// From 1; every line beyond number 4,294,967,295 has that number too.
    pub number: u32,
    /// A slice of the text.
    pub text: &'a [u8],
}

/// The lines that are left of a text. Contracts see it as the list of them, as numbers and bytes.
#[derive(Drop)]
pub struct LineIter<'a> {
    rest: &'a [u8],
    number: u32,
}

impl<'a> Model for LineIter<'a> {
    ghost use Rattle.std.specs.Prelude.{List, ℕ};
    ghost use Rattle.ice_base.specs.Text.{lines, numbered};

    ghost Value = { List (ℕ × List ℕ) };

    ghost view = { λ left. numbered left.number (lines left.rest.now) };
}

/// The lines of a text in order, numbered from 1.
pub fn lines_of(text: &[u8]) -> LineIter<'_>
    ensures { result ≡ numbered 1 (lines text.now) }
{
    LineIter {
        rest: text,
        number: 1,
    }
}

// The first line, and what is behind it.
#[tactic(auto, using(crate::proofs::Cuts::line_goes_on, crate::proofs::Cuts::line_is_cut, crate::proofs::Cuts::line_is_last))]
fn cut(text: &[u8]) -> (&[u8], &[u8])
    requires { 0 < length text.now }
    ensures { lines text.now ≡ result.0.now ∷ lines result.1.now }
{
    for (i, b) in text.iter().enumerate() {
        if *b == b'\n' {
            return (&text[..i], &text[i + 1..]);
        }
    }
    (text, &[])
}

impl<'a> Iterator for LineIter<'a> {
    ghost use Rattle.std.specs.Iterator.{YieldsFirstBy, item_count};
    ghost use Rattle.ice_base.specs.Cursors.{line_view};

    type Item = Line<'a>;

    ghost next_gives = { YieldsFirstBy line_view (λ left. left) };

    ghost remaining = { item_count (λ left. left) };

    #[tactic(auto, using(crate::proofs::Cuts::no_line_left))]
    fn next(&mut self) -> Option<Line<'a>> {
        if self.rest.is_empty() {
            return None;
        }
        let number = self.number;
        let (text, rest) = cut(self.rest);
        self.rest = rest;
        self.number = number.saturating_add(1);
        Some(Line { number, text })
    }
}
