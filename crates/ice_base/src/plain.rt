//! The lines of a text that have words, with comments taken out.
ghost use Rattle.std.specs.Prelude.{◌≡◌};
ghost use Rattle.ice_base.specs.Text.{plain_lines};

use crate::{LineIter, PlainWords, plain_words_of};
use std::marker::Model;

/// A line that has words before its comment.
#[derive(Drop)]
pub struct PlainLine<'a> {
    /// The number of the line.
    pub number: u32,
    /// The first word.
    pub first: &'a [u8],
    /// The words behind the first.
    pub others: PlainWords<'a>,
}

/// The lines with words that are left of a text. Contracts see it as the list of them, as numbers and words.
#[derive(Drop)]
pub struct PlainLines<'a> {
    lines: LineIter<'a>,
}

impl<'a> Model for PlainLines<'a> {
    ghost use Rattle.std.specs.Prelude.{List, ℕ};
    ghost use Rattle.ice_base.specs.Text.{plain_lines};

    ghost Value = { List (ℕ × List (List ℕ)) };

    ghost view = { λ left. plain_lines left.lines };
}

/// Those of these lines that have words before their comments, in order.
pub fn plain_lines(lines: LineIter<'_>) -> PlainLines<'_>
    ensures { result ≡ plain_lines lines.entry }
{
    PlainLines { lines }
}

impl<'a> Iterator for PlainLines<'a> {
    ghost use Rattle.std.specs.Iterator.{YieldsFirstBy, item_count};
    ghost use Rattle.ice_base.specs.Cursors.{plain_line_view};

    type Item = PlainLine<'a>;

    ghost next_gives = { YieldsFirstBy plain_line_view (λ left. left) };

    ghost remaining = { item_count (λ left. left) };

    fn next(&mut self) -> Option<PlainLine<'a>> {
        while let Some(line) = self.lines.next() {
            let mut words = plain_words_of(line.text);
            if let Some(first) = words.next() {
                return Some(PlainLine {
                    number: line.number,
                    first,
                    others: words,
                });
            }
        }
        None
    }
}
