//! Reading a text of delays.
ghost use Rattle.std.specs.Prelude.{◌≡◌};
ghost use Rattle.ice_base.specs.Cursors.{line_view};
ghost use Rattle.ice_timing_delays.specs.DelayTexts.{word_says, line_says, delays_of};

use crate::known::Known;
use crate::word::word_of;
use crate::{DelayFault, Delays};
use ice_base::{Line, lines_of, number_below, plain_words_of};

/// The greatest delay that a text may give: a microsecond.
const MOST_DELAY: u32 = 1_000_000;

// What is known with what a word and a number give, or None where they give nothing new.
fn with_word(known: &Known, word: &[u8], number: &[u8]) -> Option<Known>
    ensures { result ≡ word_says known.now word.now number.now }
{
    let word = word_of(word)?;
    let delay = number_below(MOST_DELAY + 1, number)?;
    if known.delay_of(word).is_some() {
        return None;
    }
    let mut more = *known;
    more.set(word, delay);
    Some(more)
}

// What is known with what a line gives.
fn with_line(known: &Known, line: &Line<'_>) -> Result<Known, DelayFault>
    ensures { result ≡ line_says known.now (line_view line.now) }
{
    let mut words = plain_words_of(line.text);
    let Some(word) = words.next() else {
        return Ok(*known);
    };
    let refusal = DelayFault::BadLine { line: line.number };
    let Some(number) = words.next() else {
        return Err(refusal);
    };
    if words.next().is_some() {
        return Err(refusal);
    }
    with_word(known, word, number).ok_or(refusal)
}

/// The delays of a text: those that the text says, or the first line of it that is refused. It takes no memory.
pub fn read_delays(text: &[u8]) -> Result<Delays, DelayFault>
    ensures { result ≡ delays_of text.now }
{
    let mut known = Known::none();
    for line in lines_of(text) {
        known = with_line(&known, &line)?;
    }
    known.delays().ok_or(DelayFault::BadLine { line: 0 })
}
