//! A place in a text, read by joined lines and their words.
ghost use Rattle.std.specs.Prelude.{◌≡◌, ◌<◌, [], ◌∷◌, length, drop, option_copied, IfSome, MatchOption, IsTrue, true, false};
ghost use Rattle.std.specs.List.{list_any};
ghost use Rattle.ice_base.specs.Text.{lines, numbered, words, is_blank, begins_with};
ghost use Rattle.ice_blif.specs.JoinedLines.{goes_on, plain, joined, filled, last_number};
ghost use Rattle.ice_blif.specs.Continued.{before_backslash, continued};
ghost use Rattle.ice_blif.specs.Views.{words_left, lines_left, IsContinued, IsFirstOf, IsNextWord, IsNextLine};

use ice_base::{LineIter, PlainWords, begins_with, lines_of, plain_words_of, words_of};

/// What is left of a text: the words of the joined line that is read, and the lines behind it.
#[derive(Drop)]
pub struct Cursor<'a> {
    words: PlainWords<'a>,
    goes_on: bool,
    lines: LineIter<'a>,
}

/// The number and the first word of a joined line.
#[derive(Clone, Copy)]
pub struct FirstWord<'a> {
    /// The number of its first line, from 1.
    pub line: u32,
    /// Its first word.
    pub word: &'a [u8],
}

fn is_blank(b: u8) -> bool
    ensures { result ≡ is_blank b }
{
    b == b' ' || b == b'\t' || b == b'\r'
}

// What stands before a backslash that only blanks follow.
#[tactic(auto, using(crate::proofs::Backslashes::backslash_here, crate::proofs::Backslashes::no_backslash_here, crate::proofs::Backslashes::no_backslash, crate::proofs::Backslashes::blank_here, crate::proofs::Backslashes::no_blanks_yet))]
fn before_backslash(line: &[u8]) -> Option<&[u8]>
    ensures { IsContinued result (before_backslash line.now) }
{
    let mut end = line.len();
    while end > 0 {
        let b = line[end - 1];
        if b == b'\\' {
            return Some(&line[..end - 1]);
        }
        if !is_blank(b) {
            return None;
        }
        end -= 1;
    }
    None
}

// Whether a comment begins in a line.
fn has_comment(line: &[u8]) -> bool
    ensures { result ≡ list_any (begins_with 35) (words line.now) }
{
    for word in words_of(line) {
        if begins_with(b'#', word) {
            return true;
        }
    }
    false
}

// What stands before the backslash of a line that goes on in the next one.
fn continued(line: &[u8]) -> Option<&[u8]>
    ensures { IsContinued result (continued line.now) }
{
    let front = before_backslash(line)?;
    if has_comment(front) {
        return None;
    }
    Some(front)
}

impl<'a> Cursor<'a> {
    /// At the start of a text.
    pub fn new(text: &'a [u8]) -> Cursor<'a>
        ensures { lines_left result ≡ joined (numbered 1 (lines text.now)) }
    {
        Cursor {
            words: plain_words_of(&[]),
            goes_on: false,
            lines: lines_of(text),
        }
    }

    // Begins to read a line.
    #[tactic(auto, using(crate::proofs::Comments::no_comment))]
    fn open(&mut self, line: &'a [u8])
        ensures words { self.new.words ≡ plain line.now }
        ensures goes_on { self.new.goes_on ≡ goes_on line.now }
        ensures lines { self.new.lines ≡ self.old.lines }
    {
        if let Some(front) = continued(line) {
            self.words = plain_words_of(front);
            self.goes_on = true;
            return;
        }
        self.words = plain_words_of(line);
        self.goes_on = false;
    }

    // Goes on to the next line of the joined line, if it has one. The words of the last one are read.
    fn open_next(&mut self) -> bool
        requires { self.old.words ≡ [] }
        ensures words { words_left self.new ≡ words_left self.old }
        ensures lines { lines_left self.new ≡ lines_left self.old }
        ensures fewer { IsTrue result → length self.new.lines < length self.old.lines }
        ensures end { result ≡ false → words_left self.new ≡ [] }
    {
        if !self.goes_on {
            return false;
        }
        match self.lines.next() {
            None => {
                self.goes_on = false;
                false
            }
            Some(line) => {
                self.open(line.text);
                true
            }
        }
    }

    /// The next word of the joined line; None at its end.
    pub fn next_word(&mut self) -> Option<&'a [u8]>
        ensures word { IsNextWord (words_left self.old) result (words_left self.new) }
        ensures lines { lines_left self.new ≡ lines_left self.old }
    {
        loop {
            if let Some(word) = self.words.next() {
                return Some(word);
            }
            if !self.open_next() {
                return None;
            }
        }
    }

    // Passes over what is left of the joined line.
    fn skip(&mut self)
        ensures end { self.new.goes_on ≡ false }
        ensures lines { lines_left self.new ≡ lines_left self.old }
    {
        while self.goes_on {
            match self.lines.next() {
                None => self.goes_on = false,
                Some(line) => self.open(line.text),
            }
        }
    }

    // Goes on to the next joined line, and gives its number; None at the end of the text.
    fn next_line(&mut self) -> Option<u32>
        ensures { IsNextLine (lines_left self.old) result
            (words_left self.new) (lines_left self.new) }
    {
        self.skip();
        let line = self.lines.next()?;
        self.open(line.text);
        Some(line.number)
    }

    /// Goes on to the next joined line that has a word, and gives that word with the line's number; None at the end of
    /// the text.
    pub fn next_filled(&mut self) -> Option<FirstWord<'a>>
        ensures { IsFirstOf (filled (lines_left self.old)) result (words_left self.new)
            (filled (lines_left self.new)) }
    {
        while let Some(line) = self.next_line() {
            if let Some(word) = self.next_word() {
                return Some(FirstWord { line, word });
            }
        }
        None
    }
}

/// The number of the last line of a text; 0 without lines.
pub(crate) fn last_line(text: &[u8]) -> u32
    ensures { result ≡ last_number 0 (numbered 1 (lines text.now)) }
{
    let mut number = 0;
    for line in lines_of(text) {
        number = line.number;
    }
    number
}
