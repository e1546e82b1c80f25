//! Reading a text of pin constraints.
ghost use Rattle.std.specs.Prelude.{◌≡◌, true, false};
ghost use Rattle.ice_base.specs.Cursors.{line_view};
ghost use Rattle.ice_pcf.specs.Grammar.{pin_line_says, set_io_says, no_options, pin_says, pin_text_says};
ghost use Rattle.ice_pcf.specs.Answers.{Gives};

use crate::constraint::Options;
use crate::{Constraint, Pcf, PcfFault};
use ice_base::{Line, PlainWords, begins_with, lines_of, name_of, plain_words_of};
use std::alloc::Global;

// The pin behind the name, and nothing more.
fn pin(
    alloc: Global,
    line: u32,
    options: &Options,
    name: &[u8],
    words: &mut PlainWords<'_>,
) -> Result<Constraint, PcfFault>
    ensures { Gives result (pin_says line options.now name.now words.old) }
{
    let Some(pin) = words.next() else {
        return Err(PcfFault::Missing { line });
    };
    if words.next().is_some() {
        return Err(PcfFault::Extra { line });
    }
    let name = name_of(alloc, name)?;
    let pin = name_of(alloc, pin)?;
    Ok(Constraint {
        line,
        name,
        pin,
        lenient: options.lenient,
        pullup: options.pullup,
    })
}

// The words behind `set_io`.
fn set_io(alloc: Global, line: u32, mut words: PlainWords<'_>) -> Result<Constraint, PcfFault>
    ensures { Gives result (set_io_says line false no_options words.entry) }
{
    let mut options = Options {
        lenient: false,
        pullup: None,
    };
    let mut value_due = false;
    while let Some(word) = words.next() {
        if value_due {
            if word == b"yes".as_slice() {
                options.pullup = Some(true);
            } else if word == b"no".as_slice() {
                options.pullup = Some(false);
            } else {
                return Err(PcfFault::UnknownWord { line });
            }
            value_due = false;
        } else if word == b"-pullup".as_slice() {
            value_due = true;
        } else if word == b"--warn-no-port".as_slice() || word == b"-nowarn".as_slice() {
            options.lenient = true;
        } else if begins_with(b'-', word) {
            return Err(PcfFault::UnknownWord { line });
        } else {
            return pin(alloc, line, &options, word, &mut words);
        }
    }
    Err(PcfFault::Missing { line })
}

// What a line says.
fn read_line(alloc: Global, line: &Line<'_>) -> Result<Option<Constraint>, PcfFault>
    ensures { Gives result (pin_line_says (line_view line.now)) }
{
    let mut words = plain_words_of(line.text);
    let Some(word) = words.next() else {
        return Ok(None);
    };
    if word == b"set_frequency".as_slice() {
        return Ok(None);
    }
    if word != b"set_io".as_slice() {
        return Err(PcfFault::UnknownWord { line: line.number });
    }
    let constraint = set_io(alloc, line.number, words)?;
    Ok(Some(constraint))
}

/// The constraints of a text: those that the text says, or the first fault in it, in the order of the text.
/// It takes memory for the constraints alone.
pub fn read_pcf(alloc: Global, text: &[u8]) -> Result<Pcf, PcfFault>
    ensures { Gives result (pin_text_says text.now) }
{
    let mut constraints = Vec::new(alloc);
    for line in lines_of(text) {
        if let Some(constraint) = read_line(alloc, &line)? {
            constraints.push(constraint)?;
        }
    }
    Ok(Pcf::of(constraints))
}
