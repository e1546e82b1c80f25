//! Whole netlist texts.
ghost use Rattle.std.specs.Prelude.{◌≡◌, IfOk};
ghost use Rattle.ice_base.specs.Text.{lines, numbered};
ghost use Rattle.ice_blif.specs.Answers.{Gives};
ghost use Rattle.ice_blif.specs.Cells.{IsReady, IsWithin, IsRawWithin};
ghost use Rattle.ice_blif.specs.Grammar.{after_end, ended, model_says, empty_reader, within_limits, text_says, netlist_of, HasNetlist, IsWithinLimits};
ghost use Rattle.ice_blif.specs.JoinedLines.{filled, last_number};
ghost use Rattle.ice_blif.specs.Views.{reader_view, lines_left};

use crate::BlifFault;
use crate::cursor::{Cursor, last_line};
use crate::directive::line;
use crate::raw::RawNetlist;
use crate::reader::{Last, MOST_CELL_LINES, Reader, finish};
use crate::registers::take_apart;
use ice_net::Netlist;
use std::alloc::Global;

// Reads over what stands behind `.end`.
fn after_end(words: &mut Cursor<'_>) -> Result<(), BlifFault>
    ensures { Gives (λ u. u) result (after_end (filled (lines_left words.old))) }
{
    while let Some(first) = words.next_filled() {
        if first.word == b".model".as_slice() {
            return Err(BlifFault::SecondModel { line: first.line });
        }
    }
    Ok(())
}

// The netlist of a reader that came to `.end`.
#[tactic(auto, using(crate::proofs::OpenCells::finished_within))]
fn ended(reader: Reader, words: &mut Cursor<'_>) -> Result<RawNetlist, BlifFault>
    requires ready { IsReady MOST_CELL_LINES (reader_view reader) }
    requires within { IsWithin (reader_view reader) }
    ensures netlist { Gives (λ n. n) result
        (ended (reader_view reader) (filled (lines_left words.old))) }
    ensures limits { IfOk result IsRawWithin }
{
    let mut netlist = reader.netlist;
    finish(&mut netlist, reader.last)?;
    after_end(words)?;
    Ok(netlist)
}

// Reads the lines behind `.model`, of a text whose last line has this number.
fn model(alloc: Global, text: &[u8], words: &mut Cursor<'_>) -> Result<RawNetlist, BlifFault>
    ensures netlist { Gives (λ n. n) result
        (model_says within_limits (last_number 0 (numbered 1 (lines text.now))) empty_reader
        (filled (lines_left words.old))) }
    ensures limits { IfOk result IsRawWithin }
{
    let mut reader = Reader {
        netlist: RawNetlist::new(alloc),
        last: Last::Nothing,
        rows: false,
    };
    while let Some(first) = words.next_filled() {
        if first.word == b".end".as_slice() {
            return ended(reader, words);
        }
        line(alloc, &mut reader, first, words)?;
    }
    Err(BlifFault::NoEnd {
        line: last_line(text),
    })
}

// Reads a text; its cells are as their lines say them.
fn read_lines(alloc: Global, text: &[u8]) -> Result<RawNetlist, BlifFault>
    ensures netlist { Gives (λ n. n) result (text_says within_limits text.now) }
    ensures limits { IfOk result IsRawWithin }
{
    let mut words = Cursor::new(text);
    let Some(first) = words.next_filled() else {
        return Err(BlifFault::NoModel { line: 0 });
    };
    if first.word != b".model".as_slice() {
        return Err(BlifFault::NoModel { line: first.line });
    }
    model(alloc, text, &mut words)
}

/// The netlist of a text in the Berkeley logic interchange format, or the first fault in it: of several lines with a fault
/// the first, and of a line with several faults the one that comes first in the order of `BlifFault`. Want of memory may
/// come before any of them.
///
/// An SB_IO of PIN_TYPE 000000 becomes one of 000001 whose D_IN_0 drives a hidden signal, and behind it an SB_DFFE with INPUT_CLK,
/// CLOCK_ENABLE and its D_IN_0; one of 010101 becomes one of 011001 whose D_OUT_0 is a hidden signal, and behind it an SB_DFFE with
/// OUTPUT_CLK, CLOCK_ENABLE and its D_OUT_0. An SB_GB_IO becomes the cells of such an SB_IO and an SB_GB that reads PACKAGE_PIN's
/// signal. A hidden signal is named by the number of the line, a blank and `in` or `out`; these signals come last.
///
/// A netlist has at most 65,534 signals and is made by at most 1,048,576 lines that make a cell. That hidden signals are too many is
/// found after all other faults, at the line of the first cell whose signal is.
#[tactic(auto, using(crate::proofs::WholeTexts::result_has, crate::proofs::WholeTexts::result_within))]
pub fn read_blif(alloc: Global, text: &[u8]) -> Result<Netlist, BlifFault>
    ensures netlist { Gives (λ n. n) result (netlist_of text.now) }
    ensures has { IfOk result (HasNetlist text.now) }
    ensures limits { IfOk result (IsWithinLimits text.now) }
{
    let raw = read_lines(alloc, text)?;
    take_apart(alloc, raw)
}
