//! Lines of a model.
ghost use Rattle.std.specs.Prelude.{◌≡◌, ◌+◌, ◌<◌, ◌≤◌, length, OnOk, IfOk};
ghost use Rattle.ice_blif.specs.Answers.{Gives};
ghost use Rattle.ice_blif.specs.Cells.{IsReady, IsWithin};
ghost use Rattle.ice_blif.specs.Grammar.{directive_says, row_or_fault, within_limits, line_says, port_directive_says, param_directive_says};
ghost use Rattle.ice_blif.specs.Views.{reader_view, words_left, lines_left};

use crate::BlifFault;
use crate::cover::{names, row};
use crate::cursor::{Cursor, FirstWord};
use crate::gate::gate;
use crate::parameter::param;
use crate::reader::{Last, MOST_CELL_LINES, Reader};
use crate::signal::ports;
use ice_base::begins_with;
use ice_net::{MOST_SIGNALS, Way};
use std::alloc::Global;

// Names the ports of a line.
#[tactic(auto, using(crate::proofs::Wirings::last_formed_more))]
fn port_directive(
    reader: &mut Reader,
    line: u32,
    way: Way,
    words: &mut Cursor<'_>,
) -> Result<(), BlifFault>
    requires { IsReady MOST_CELL_LINES (reader_view reader.old) }
    ensures reader { Gives (λ _. reader_view reader.new) result
        (port_directive_says line way (reader_view reader.old) (words_left words.old)) }
    ensures ready { OnOk result (IsReady (MOST_CELL_LINES + 1) (reader_view reader.new)) }
    ensures lines { lines_left words.new ≡ lines_left words.old }
{
    ports(&mut reader.netlist, line, way, words)?;
    reader.rows = false;
    Ok(())
}

// Reads a parameter of the last cell.
fn param_directive(reader: &mut Reader, line: u32, words: &mut Cursor<'_>) -> Result<(), BlifFault>
    requires { IsReady MOST_CELL_LINES (reader_view reader.old) }
    ensures reader { Gives (λ _. reader_view reader.new) result
        (param_directive_says line (reader_view reader.old) (words_left words.old)) }
    ensures ready { OnOk result (IsReady (MOST_CELL_LINES + 1) (reader_view reader.new)) }
    ensures lines { lines_left words.new ≡ lines_left words.old }
{
    param(&mut reader.last, line, words)?;
    reader.rows = false;
    Ok(())
}

// Reads a line that begins with a dot.
fn directive(
    alloc: Global,
    reader: &mut Reader,
    first: FirstWord<'_>,
    words: &mut Cursor<'_>,
) -> Result<(), BlifFault>
    requires { IsReady MOST_CELL_LINES (reader_view reader.old) }
    ensures reader { Gives (λ _. reader_view reader.new) result (directive_says first.entry.line
        (reader_view reader.old) first.entry.word.now (words_left words.old)) }
    ensures ready { OnOk result (IsReady (MOST_CELL_LINES + 1) (reader_view reader.new)) }
    ensures lines { lines_left words.new ≡ lines_left words.old }
{
    let word = first.word;
    let line = first.line;
    if word == b".gate".as_slice() || word == b".subckt".as_slice() {
        return gate(alloc, reader, line, words);
    }
    if word == b".names".as_slice() {
        return names(alloc, reader, line, words);
    }
    if word == b".param".as_slice() {
        return param_directive(reader, line, words);
    }
    if word == b".attr".as_slice() || word == b".cname".as_slice() {
        reader.rows = false;
        return Ok(());
    }
    if word == b".inputs".as_slice() {
        return port_directive(reader, line, Way::Input, words);
    }
    if word == b".outputs".as_slice() {
        return port_directive(reader, line, Way::Output, words);
    }
    if word == b".model".as_slice() {
        return Err(BlifFault::SecondModel { line });
    }
    Err(BlifFault::UnknownDirective { line })
}

// Reads a line that begins with no dot: a row, where one may stand.
fn row_line<'a>(
    reader: &mut Reader,
    first: FirstWord<'a>,
    words: &mut Cursor<'a>,
) -> Result<(), BlifFault>
    requires { IsReady MOST_CELL_LINES (reader_view reader.old) }
    ensures reader { Gives (λ _. reader_view reader.new) result (row_or_fault first.entry.line
        (reader_view reader.old) first.entry.word.now (words_left words.old)) }
    ensures ready { OnOk result (IsReady (MOST_CELL_LINES + 1) (reader_view reader.new)) }
    ensures lines { lines_left words.new ≡ lines_left words.old }
{
    if !reader.rows {
        return Err(BlifFault::UnknownDirective { line: first.line });
    }
    let Last::Rows(cover) = &mut reader.last else {
        return Err(BlifFault::UnknownDirective { line: first.line });
    };
    row(cover, first.line, first.word, words)
}

// Finds that there are too many signals, or too many lines that make a cell.
fn check_limits(reader: &Reader, line: u32) -> Result<(), BlifFault>
    ensures limits { Gives (λ _. reader_view reader.now) result
        (within_limits line (reader_view reader.now)) }
    ensures within { OnOk result (IsWithin (reader_view reader.now)) }
{
    if reader.netlist.signals() > MOST_SIGNALS {
        return Err(BlifFault::TooMany {
            line,
            limit: MOST_SIGNALS,
        });
    }
    let cells = reader.netlist.cells_count();
    let last = match reader.last {
        Last::Nothing | Last::Memory => 0,
        _ => 1,
    };
    if cells > MOST_CELL_LINES as usize - last {
        return Err(BlifFault::TooMany {
            line,
            limit: MOST_CELL_LINES,
        });
    }
    Ok(())
}

/// Reads a line of the model whose first word is this one.
pub(crate) fn line<'a>(
    alloc: Global,
    reader: &mut Reader,
    first: FirstWord<'a>,
    words: &mut Cursor<'a>,
) -> Result<(), BlifFault>
    requires { IsReady MOST_CELL_LINES (reader_view reader.old) }
    ensures reader { Gives (λ _. reader_view reader.new) result (line_says within_limits
        (record {
          number = first.entry.line;
          first = first.entry.word.now;
          others = words_left words.old;
        })
        (reader_view reader.old)) }
    ensures ready { OnOk result (IsReady MOST_CELL_LINES (reader_view reader.new)) }
    ensures within { OnOk result (IsWithin (reader_view reader.new)) }
    ensures lines { lines_left words.new ≡ lines_left words.old }
{
    if begins_with(b'.', first.word) {
        directive(alloc, reader, first, words)?;
    } else {
        row_line(reader, first, words)?;
    }
    check_limits(reader, first.line)
}
