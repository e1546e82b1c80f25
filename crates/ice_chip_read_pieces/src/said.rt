//! What lines of a chip text say so far.
ghost use Rattle.std.specs.Prelude.{◌≡◌, ℕ, Option, None, Result, Ok, Err, List, ◌++◌, IfNone, IfSome};
ghost use Rattle.ice_base.specs.Text.{uncommented, words};
ghost use Rattle.ice_chip.specs.declared.fault.ChipFault.{ChipFault};
ghost use Rattle.ice_chip_read.specs.Reading as lines;
ghost use Rattle.ice_chip_read.specs.declared.fault.ChipStop.{ChipStop};
ghost use Rattle.ice_chip_read_pieces.specs.SoFar.{so_far, with_text, words_at};
ghost use Rattle.ice_chip_read_pieces.specs.Held.{HasSaid, IsLineTaken, said_view};

use ice_base::{PlainLine, PlainWords, plain_words_of};
use ice_chip_read::{ChipStop, Reading, take_ahead, take_first, take_text};
use std::alloc::Global;
use std::mem;

/// What lines say so far.
#[derive(Drop)]
pub enum Said {
    /// None of them has words.
    Nothing,
    /// These rows.
    Rows(Reading),
    /// The first fault of a line, or want of memory.
    Stopped(ChipStop),
}

// This in the place of what was said.
fn say(said: &mut Said, next: Said)
    ensures { said_view said.new ≡ said_view next }
{
    drop(mem::replace(said, next));
}

// One line more, by its words, where none before it has words. It stands apart, so that later lines don't pay for the room of
// what it makes.
#[cold]
#[inline(never)]
fn take_first_words(alloc: Global, said: &mut Said, number: u32, mut words: PlainWords<'_>)
    requires { said_view said.old ≡ Ok None }
    ensures { HasSaid (said_view said.new) (with_text (Ok None) number words.entry) }
{
    let Some(first) = words.next() else {
        return;
    };
    let line = PlainLine {
        number,
        first,
        others: words,
    };
    let next = match take_first(alloc, line) {
        Ok(reading) => Said::Rows(reading),
        Err(fault) => Said::Stopped(ChipStop::Fault(fault)),
    };
    say(said, next);
}

/// The reading stopped.
#[cold]
#[inline(never)]
pub fn stop(said: &mut Said, stop: ChipStop)
    ensures { said_view said.new ≡ Err stop }
{
    say(said, Said::Stopped(stop));
}

// One line more, by its bytes. What stopped stays so.
#[inline(always)]
fn take_bytes(alloc: Global, said: &mut Said, number: u32, line: &[u8])
    ensures said { (s : Result (Option lines.Reading) ChipFault) → HasSaid (said_view said.old) s
        → HasSaid (said_view said.new) (with_text s number (uncommented (words line.now))) }
    ensures stopped { (stop : ChipStop) → said_view said.old ≡ Err stop
        → said_view said.new ≡ Err stop }
{
    match said {
        Said::Nothing => take_first_words(alloc, said, number, plain_words_of(line)),
        Said::Rows(reading) => {
            if let Err(fault) = take_text(alloc, reading, number, line) {
                stop(said, fault);
            }
        }
        Said::Stopped(_) => {}
    }
}

/// The line at the front of a text, of this number, where it has one of the forms in which databases have most of their lines, and
/// where lines before it had words: what is behind its line feed. Otherwise nothing is taken.
#[inline(always)]
pub fn take_front<'a>(
    alloc: Global,
    said: &mut Said,
    number: u32,
    text: &'a [u8],
) -> Option<&'a [u8]>
    ensures taken { IfSome result (λ rest.
        IsLineTaken (said_view said.old) (said_view said.new) number text.now rest.now) }
    ensures same { IfNone result (said_view said.new ≡ said_view said.old) }
{
    let Said::Rows(reading) = said else {
        return None;
    };
    let (answer, rest) = take_ahead(alloc, reading, number, text)?;
    match answer {
        Ok(()) => Some(rest),
        Err(fault) => {
            stop(said, fault);
            Some(rest)
        }
    }
}

/// One line more, of this number. What stopped stays so.
#[inline(always)]
pub fn take(alloc: Global, said: &mut Said, number: u32, line: &[u8])
    ensures said { (ls : List (ℕ × List (List ℕ))) → HasSaid (said_view said.old) (so_far ls)
        → HasSaid (said_view said.new) (so_far (ls ++ words_at number line.now)) }
    ensures stopped { (stop : ChipStop) → said_view said.old ≡ Err stop
        → said_view said.new ≡ Err stop }
{
    take_bytes(alloc, said, number, line);
}
