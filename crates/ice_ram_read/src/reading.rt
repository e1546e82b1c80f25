//! The RAMs of a text, line by line.
ghost use Rattle.std.specs.Prelude.{◌≡◌, ◌<◌, ◌++◌, ◌==◌, replicate, option_map, IfOk, OnOk, Some, None};
ghost use Rattle.ice_blif.specs.Grammar.{equals_at};
ghost use Rattle.ice_blif.specs.JoinedLines.{filled};
ghost use Rattle.ice_blif.specs.Views.{words_left, lines_left};
ghost use Rattle.ice_ram_words.specs.Words.{row_of, edges_of};
ghost use Rattle.ice_ram_read.specs.RamData.{new_ram, mode_of, mode_said, value_said, param_said};
ghost use Rattle.ice_ram_read.specs.RamTexts.{found, actual_found, connected, signals_said, opened, opened_by, listed, AreFirst, rams_said, rams_of, after_line, before_line};

use crate::ram_text::RamText;
use ice_base::{NoMemory, SignalNo};
use ice_blif::{Cursor, FirstWord, bits_in, equals_at, is_missing};
use ice_net::Netlist;
use ice_ram_words::{Edges, RAM_INPUTS, RAM_PLACES, edges_named, place, row_named};
use std::alloc::Global;
use std::mem::replace;

/// So many RAMs a text may have at most: 74 hidden signals of each, and no more than 65,534 in all.
pub(crate) const MOST_RAMS: usize = 885;

// The signal of a name that appeared.
fn found(netlist: &Netlist, name: &[u8]) -> Option<SignalNo>
    ensures { result ≡ found netlist.now name.now }
{
    netlist.find(name)
}

// The signal of an actual; None where it makes no appearance.
fn actual_found(netlist: &Netlist, output: bool, actual: &[u8]) -> Option<SignalNo>
    ensures { result ≡ actual_found netlist.now output actual.now }
{
    if is_missing(output, actual) {
        return None;
    }
    found(netlist, actual)
}

// Puts the signal of a connection in its place.
fn connect(
    netlist: &Netlist,
    edges: Edges,
    signals: &mut [Option<SignalNo>; RAM_PLACES],
    word: &[u8],
)
    ensures { signals.new ≡ connected netlist.now edges signals.old word.now (equals_at word.now) }
{
    let Some(at) = equals_at(word) else {
        return;
    };
    let Some(place) = place(edges, &word[..at]) else {
        return;
    };
    signals[place] = actual_found(netlist, place >= RAM_INPUTS, &word[at + 1..]);
}

// The signals of a line's connections.
fn signals(
    netlist: &Netlist,
    edges: Edges,
    words: &mut Cursor<'_>,
) -> [Option<SignalNo>; RAM_PLACES]
    ensures signals { result
        ≡ signals_said netlist.now edges (replicate 76 None) (words_left words.old) }
    ensures lines { lines_left words.new ≡ lines_left words.old }
{
    let mut signals = [None; RAM_PLACES];
    while let Some(word) = words.next_word() {
        connect(netlist, edges, &mut signals, word);
    }
    signals
}

// The RAM that the words behind a kind open; None where it is no RAM's.
fn opened_by(
    alloc: Global,
    netlist: &Netlist,
    line: u32,
    word: &[u8],
    words: &mut Cursor<'_>,
) -> Result<Option<RamText>, NoMemory>
    ensures ram { IfOk result (λ ram.
        ram ≡ opened_by netlist.now line (words_left words.old) (edges_of word.now)) }
    ensures lines { lines_left words.new ≡ lines_left words.old }
{
    let Some(edges) = edges_named(word) else {
        return Ok(None);
    };
    let signals = signals(netlist, edges, words);
    let ram = RamText::new(alloc, line, edges, signals)?;
    Ok(Some(ram))
}

// The RAM that the words behind `.gate` or `.subckt` open, if it is one.
fn opened(
    alloc: Global,
    netlist: &Netlist,
    line: u32,
    words: &mut Cursor<'_>,
) -> Result<Option<RamText>, NoMemory>
    ensures ram { IfOk result (λ ram. ram ≡ opened netlist.now line (words_left words.old)) }
    ensures lines { lines_left words.new ≡ lines_left words.old }
{
    let Some(word) = words.next_word() else {
        return Ok(None);
    };
    opened_by(alloc, netlist, line, word, words)
}

// The value of a mode.
fn mode(value: &[u8]) -> u8
    ensures mode { result ≡ mode_of value.now }
    ensures few { result < 4 }
{
    match bits_in(4, value) {
        None => 0,
        Some(mode) => mode as u8,
    }
}

// Reads the value of a mode of a RAM, if it is one.
fn set_mode(ram: &mut RamText, name: &[u8], value: &[u8])
    ensures { ram.new ≡ mode_said ram.old name.now value.now }
{
    if name == b"READ_MODE".as_slice() {
        ram.set_read_mode(mode(value));
    } else if name == b"WRITE_MODE".as_slice() {
        ram.set_write_mode(mode(value));
    }
}

// Reads the value of a parameter of a RAM.
fn set_value(ram: &mut RamText, name: &[u8], value: &[u8])
    ensures { ram.new ≡ value_said ram.old name.now value.now (row_of name.now) }
{
    match row_named(name) {
        None => set_mode(ram, name, value),
        Some(row) => ram.set_row(usize::from(row), value),
    }
}

// Reads a parameter of a RAM.
fn set_param(ram: &mut RamText, words: &mut Cursor<'_>)
    ensures ram { ram.new ≡ param_said ram.old (words_left words.old) }
    ensures lines { lines_left words.new ≡ lines_left words.old }
{
    let Some(name) = words.next_word() else {
        return;
    };
    let Some(value) = words.next_word() else {
        return;
    };
    set_value(ram, name, value);
}

// Reads a parameter, which belongs to the open RAM.
fn param(last: &mut Option<RamText>, words: &mut Cursor<'_>)
    ensures ram { last.new ≡ option_map (λ ram. param_said ram (words_left words.old)) last.old }
    ensures lines { lines_left words.new ≡ lines_left words.old }
{
    if let Some(ram) = last {
        set_param(ram, words);
    }
}

// Lets the open RAM, if there is one, join the others, and opens another.
fn close(
    rams: &mut Vec<RamText>,
    last: &mut Option<RamText>,
    next: Option<RamText>,
) -> Result<(), NoMemory>
    ensures rams { OnOk result (rams.new.items ≡ rams.old.items ++ listed last.old) }
    ensures last { OnOk result (last.new ≡ next) }
{
    if let Some(ram) = replace(last, next) {
        rams.push(ram)?;
    }
    Ok(())
}

// Reads a line that isn't `.end`.
fn line<'a>(
    alloc: Global,
    netlist: &Netlist,
    rams: &mut Vec<RamText>,
    last: &mut Option<RamText>,
    first: FirstWord<'a>,
    words: &mut Cursor<'a>,
) -> Result<(), NoMemory>
    ensures rams { OnOk result
        (rams.new.items ≡ rams.old.items ++ before_line last.old first.entry.word.now) }
    ensures last { OnOk result (last.new ≡ after_line netlist.now last.old (record {
      number = first.entry.line;
      first = first.entry.word.now;
      others = words_left words.old;
    })) }
    ensures lines { lines_left words.new ≡ lines_left words.old }
{
    if first.word == b".gate".as_slice() || first.word == b".subckt".as_slice() {
        let next = opened(alloc, netlist, first.line, words)?;
        return close(rams, last, next);
    }
    if first.word == b".names".as_slice() {
        return close(rams, last, None);
    }
    if first.word == b".param".as_slice() {
        param(last, words);
    }
    Ok(())
}

// Reads lines up to `.end`, or until there are too many RAMs.
fn lines(
    alloc: Global,
    netlist: &Netlist,
    rams: &mut Vec<RamText>,
    last: &mut Option<RamText>,
    words: &mut Cursor<'_>,
) -> Result<(), NoMemory>
    ensures { OnOk result (AreFirst (rams.new.items ++ listed last.new)
        (rams.old.items ++ rams_said netlist.now last.old (filled (lines_left words.old)))) }
{
    while let Some(first) = words.next_filled() {
        if first.word == b".end".as_slice() {
            return Ok(());
        }
        line(alloc, netlist, rams, last, first, words)?;
        if rams.len() > MOST_RAMS {
            *last = None;
            return Ok(());
        }
    }
    Ok(())
}

/// The RAMs of a text that has this netlist, in the order of their lines. Behind too many it stops.
pub(crate) fn rams_of(
    alloc: Global,
    netlist: &Netlist,
    text: &[u8],
) -> Result<Vec<RamText>, NoMemory>
    ensures { IfOk result (λ rams. AreFirst rams.items (rams_of netlist.now text.now)) }
{
    let mut rams = Vec::new(alloc);
    let mut last = None;
    let mut words = Cursor::new(text);
    lines(alloc, netlist, &mut rams, &mut last, &mut words)?;
    close(&mut rams, &mut last, None)?;
    Ok(rams)
}
