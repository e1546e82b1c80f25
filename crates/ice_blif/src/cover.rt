//! Covers: `.names` lines and their rows.
ghost use Rattle.std.specs.Prelude.{◌≡◌, ◌+◌, ◌≤◌, ◌<◌, ◌^◌, [], length, OnOk, IfOk, IfErr, All};
ghost use Rattle.ice_blif.specs.declared.fault.BlifFault.TheVariants.{NoMemory as out_of_memory};
ghost use Rattle.std.specs.List.{list_all};
ghost use Rattle.ice_blif.specs.Answers.{Gives, ArePartsOf};
ghost use Rattle.ice_blif.specs.Covers.{covers, bit, four_bits, row_table, level_of_word, table_of};
ghost use Rattle.ice_net.specs.Formed.{IsPresent};
ghost use Rattle.ice_blif.specs.Cells.{row_parts, row_of_level, cover_row_says, IsReady, is_row_digit, is_row, agrees};
ghost use Rattle.ice_blif.specs.Grammar.{cover_signals, new_cover, names_say};
ghost use Rattle.ice_blif.specs.Views.{cover_view, reader_view, words_left, lines_left};

use crate::BlifFault;
use crate::cursor::Cursor;
use crate::raw::RawNetlist;
use crate::reader::{Cover, Last, MOST_CELL_LINES, Reader, join};
use ice_base::SignalNo;
use ice_lut::complement;
use ice_net::Signals;
use std::alloc::Global;

// The number of tables of so many inputs.
fn tables(width: u8) -> u32
    requires { width ≤ 4 }
    ensures { result ≡ 2 ^ (2 ^ width) }
{
    match width {
        0 => 2,
        1 => 4,
        2 => 16,
        3 => 256,
        _ => 65536,
    }
}

/// The table of a cover by the level that its rows give.
#[tactic(auto, using(crate::proofs::OpenCells::small_rest))]
pub(crate) fn table_of(width: u8, level: Option<bool>, covered: u16) -> u16
    requires { width ≤ 4 }
    ensures { result ≡ table_of width level covered }
{
    let table = match level {
        None => return 0,
        Some(true) => covered,
        Some(false) => complement(covered),
    };
    (u32::from(table) % tables(width)) as u16
}

// Whether a row has the levels of that number.
fn covers(row: &[u8], levels: u16) -> bool
    ensures { result ≡ covers row.now levels }
{
    let mut left = levels;
    for (i, digit) in row.iter().enumerate() {
        let level = if left % 2 == 1 { b'1' } else { b'0' };
        if *digit != b'-' && *digit != level {
            return false;
        }
        left /= 2;
    }
    true
}

fn bit(row: &[u8], levels: u16) -> u16
    ensures value { result ≡ bit (covers row.now levels) }
    ensures small { result ≤ 1 }
{
    u16::from(covers(row, levels))
}

// Four bits of a row's table.
fn four_bits(row: &[u8], levels: u16) -> u16
    requires { levels ≤ 12 }
    ensures value { result ≡ four_bits row.now levels }
    ensures small { result ≤ 15 }
{
    bit(row, levels + 3) * 8
        + bit(row, levels + 2) * 4
        + bit(row, levels + 1) * 2
        + bit(row, levels)
}

// The table of a row.
fn row_table(row: &[u8]) -> u16
    ensures { result ≡ row_table row.now }
{
    four_bits(row, 12) * 4096 + four_bits(row, 8) * 256 + four_bits(row, 4) * 16 + four_bits(row, 0)
}

fn is_row_digit(b: u8) -> bool
    ensures { result ≡ is_row_digit b }
{
    b == b'0' || b == b'1' || b == b'-'
}

fn are_row_digits(row: &[u8]) -> bool
    ensures { result ≡ list_all is_row_digit row.now }
{
    row.iter().all(|b| is_row_digit(*b))
}

// Whether a word is a row for so many inputs.
fn is_row(width: usize, row: &[u8]) -> bool
    ensures { result ≡ is_row width row.now }
{
    if row.len() != width {
        return false;
    }
    are_row_digits(row)
}

// The level that a row gives.
fn level_of(word: &[u8]) -> Option<bool>
    ensures { result ≡ level_of_word word.now }
{
    if word == b"0".as_slice() {
        return Some(false);
    }
    if word == b"1".as_slice() {
        return Some(true);
    }
    None
}

fn agrees(before: Option<bool>, level: bool) -> bool
    ensures { result ≡ agrees before level }
{
    match before {
        None => true,
        Some(true) => level,
        Some(false) => !level,
    }
}

// The digits and the level of a row whose first word is this one.
fn row_parts<'a>(
    width: usize,
    first: &'a [u8],
    words: &mut Cursor<'a>,
) -> Option<(&'a [u8], &'a [u8])>
    ensures parts { ArePartsOf result (row_parts width first.now (words_left words.old)) }
    ensures lines { lines_left words.new ≡ lines_left words.old }
{
    if width == 0 {
        return match words.next_word() {
            None => Some((&[], first)),
            Some(_) => None,
        };
    }
    let level = words.next_word()?;
    match words.next_word() {
        None => Some((first, level)),
        Some(_) => None,
    }
}

// Adds a row that gives this level.
fn add_row(cover: &mut Cover, line: u32, row: &[u8], level: Option<bool>) -> Result<(), BlifFault>
    ensures cover { Gives (λ _. cover_view cover.new) result
        (row_of_level line (cover_view cover.old) row.now level) }
    ensures shape { (cover.new.ins ≡ cover.old.ins) × (cover.new.outs ≡ cover.old.outs) }
{
    let Some(level) = level else {
        return Err(BlifFault::BadCover { line });
    };
    if !agrees(cover.level, level) {
        return Err(BlifFault::BadCover { line });
    }
    cover.covered |= row_table(row);
    cover.level = Some(level);
    Ok(())
}

/// Reads a row of a cover whose first word is this one.
pub(crate) fn row<'a>(
    cover: &mut Cover,
    line: u32,
    first: &'a [u8],
    words: &mut Cursor<'a>,
) -> Result<(), BlifFault>
    ensures cover { Gives (λ _. cover_view cover.new) result
        (cover_row_says line (cover_view cover.old) first.now (words_left words.old)) }
    ensures shape { (cover.new.ins ≡ cover.old.ins) × (cover.new.outs ≡ cover.old.outs) }
    ensures lines { lines_left words.new ≡ lines_left words.old }
{
    let width = cover.ins.as_slice().len();
    let Some((row, level)) = row_parts(width, first, words) else {
        return Err(BlifFault::BadCover { line });
    };
    if !is_row(width, row) {
        return Err(BlifFault::BadCover { line });
    }
    add_row(cover, line, row, level_of(level))
}

// The signals of a cover, the output last.
#[tactic(auto, using(crate::proofs::CoverSignals::one_more, crate::proofs::CoverSignals::none_yet))]
fn cover_signals(
    alloc: Global,
    netlist: &mut RawNetlist,
    line: u32,
    words: &mut Cursor<'_>,
) -> Result<Vec<Option<SignalNo>>, BlifFault>
    ensures signals { Gives (λ signals. (netlist.new, signals.items)) result
        (cover_signals line netlist.old [] (words_left words.old)) }
    ensures short { IfOk result (λ signals. length signals.items ≤ 5) }
    ensures present { IfOk result (λ signals.
        All (IsPresent (length netlist.new.names)) signals.items) }
    ensures kept { OnOk result (length netlist.old.names ≤ length netlist.new.names) }
    ensures cells { OnOk result (netlist.new.cells ≡ netlist.old.cells) }
    ensures lines { lines_left words.new ≡ lines_left words.old }
{
    let mut signals = Vec::new(alloc);
    while let Some(word) = words.next_word() {
        if signals.len() > 4 {
            return Err(BlifFault::TooWide { line });
        }
        let signal = netlist.number(word)?;
        signals.push(Some(signal))?;
    }
    Ok(signals)
}

// A cover without rows.
fn new_cover(alloc: Global, line: u32, signals: &[Option<SignalNo>]) -> Result<Cover, BlifFault>
    requires { 0 < length signals.now }
    ensures cover { IfOk result (λ cover. cover_view cover ≡ new_cover line signals.now) }
    ensures memory { IfErr result (λ e. e ≡ out_of_memory) }
{
    let (ins, outs) = signals.split_at(signals.len() - 1);
    let ins = Vec::from_slice(alloc, ins)?;
    let outs = Vec::from_slice(alloc, outs)?;
    Ok(Cover {
        line,
        ins: Signals::from_vec(ins),
        outs: Signals::from_vec(outs),
        covered: 0,
        level: None,
    })
}

/// Reads the words behind `.names`.
#[tactic(auto, using(crate::proofs::CoverSignals::cover_open))]
pub(crate) fn names(
    alloc: Global,
    reader: &mut Reader,
    line: u32,
    words: &mut Cursor<'_>,
) -> Result<(), BlifFault>
    requires { IsReady MOST_CELL_LINES (reader_view reader.old) }
    ensures names { Gives (λ _. reader_view reader.new) result
        (names_say line (reader_view reader.old) (words_left words.old)) }
    ensures ready { OnOk result (IsReady (MOST_CELL_LINES + 1) (reader_view reader.new)) }
    ensures lines { lines_left words.new ≡ lines_left words.old }
{
    let signals = cover_signals(alloc, &mut reader.netlist, line, words)?;
    if signals.is_empty() {
        return Err(BlifFault::BadCover { line });
    }
    let cover = new_cover(alloc, line, &signals)?;
    join(reader, Last::Rows(cover), true)
}
