//! Parameters of cells.
ghost use Rattle.std.specs.Prelude.{◌≡◌, ℕ, ◌<◌, ◌≤◌, ◌&&◌, true, nat_lt, Some, None, if◌then◌else◌, IfOk, IfSome, OnOk};
ghost use Rattle.std.specs.List.{list_all};
ghost use Rattle.ice_blif.specs.Answers.{Gives};
ghost use Rattle.ice_blif.specs.Gates.{with_param_digit};
ghost use Rattle.ice_blif.specs.Parameters.{is_digit, bits_from, bits_in, bits_say, standard_says, KeepsForm, contents_say, file_says, is_contents};
ghost use Rattle.ice_blif.specs.Cells.{lut_says, pad_says, kind_says, param_says, IsFormedLast, memory_says};
ghost use Rattle.ice_blif.specs.Views.{last_view, words_left, lines_left};

use crate::BlifFault;
use crate::cursor::Cursor;
use crate::reader::Last;
use ice_net::CellKind;
use ice_ram_words::row_named;

/// The values of a parameter are below this number, that of the tables of four inputs.
const VALUES: u32 = 65_536;

fn is_digit(b: u8) -> bool
    ensures { result ≡ is_digit b }
{
    b == b'0' || b == b'1' || b == b'x'
}

// The number behind another's digits and one more, where that is a digit and the number is below the limit.
fn appended(limit: u32, number: u32, digit: u8) -> Option<u32>
    requires { number < VALUES }
    ensures { result ≡ (if is_digit digit && nat_lt (with_param_digit number digit) limit
        then Some (with_param_digit number digit) else None) }
{
    if !is_digit(digit) {
        return None;
    }
    let next = 2 * number + u32::from(digit == b'1');
    if next >= limit {
        return None;
    }
    Some(next)
}

// The number that digits write, the greatest first, where it is below the limit.

fn bits_from(limit: u32, word: &[u8]) -> Option<u32>
    requires some { 0 < limit }
    requires small { limit ≤ VALUES }
    ensures value { result ≡ bits_from limit 0 word.now }
    ensures below { IfSome result (λ n. n < limit) }
{
    let mut number = 0;
    for (i, digit) in word.iter().enumerate() {
        number = appended(limit, number, *digit)?;
    }
    Some(number)
}

/// The value of 1 to 128 digits, `0`, `1` or `x`, the greatest first, where it is below the limit; `x` counts as 0.
pub fn bits_in(limit: u32, word: &[u8]) -> Option<u32>
    requires some { 0 < limit }
    requires small { limit ≤ VALUES }
    ensures value { result ≡ bits_in limit word.now }
    ensures below { IfSome result (λ n. n < limit) }
{
    if word.is_empty() || word.len() > 128 {
        return None;
    }
    bits_from(limit, word)
}

// The value of a parameter, below the limit.
fn bits(limit: u32, line: u32, words: &mut Cursor<'_>) -> Result<u32, BlifFault>
    requires some { 0 < limit }
    requires small { limit ≤ VALUES }
    ensures value { Gives (λ n. n) result (bits_say line limit (words_left words.old)) }
    ensures below { IfOk result (λ n. n < limit) }
    ensures lines { lines_left words.new ≡ lines_left words.old }
{
    let Some(word) = words.next_word() else {
        return Err(BlifFault::BadParam { line });
    };
    if words.next_word().is_some() {
        return Err(BlifFault::BadParam { line });
    }
    match bits_in(limit, word) {
        Some(number) => Ok(number),
        None => Err(BlifFault::BadParam { line }),
    }
}

// The value of IO_STANDARD, which must not be that of a differential input.
fn standard(line: u32, words: &mut Cursor<'_>) -> Result<bool, BlifFault>
    ensures value { Gives (λ allowed. allowed) result (standard_says line (words_left words.old)) }
    ensures lines { lines_left words.new ≡ lines_left words.old }
{
    let Some(word) = words.next_word() else {
        return Err(BlifFault::BadParam { line });
    };
    if words.next_word().is_some() {
        return Err(BlifFault::BadParam { line });
    }
    if word == b"\"SB_LVDS_INPUT\"".as_slice() {
        return Err(BlifFault::BadParam { line });
    }
    Ok(true)
}

// Whether all bytes of a word are digits of a parameter.
fn are_digits(word: &[u8]) -> bool
    ensures { result ≡ list_all is_digit word.now }
{
    word.iter().all(|b| is_digit(*b))
}

// Whether a word is the contents of sixteen words of a RAM.
fn is_contents(word: &[u8]) -> bool
    ensures { result ≡ is_contents word.now }
{
    if word.is_empty() || word.len() > 256 {
        return false;
    }
    are_digits(word)
}

// Looks at the contents of sixteen words of a RAM.
fn contents(line: u32, words: &mut Cursor<'_>) -> Result<(), BlifFault>
    ensures value { Gives (λ _. true) result (contents_say line (words_left words.old)) }
    ensures lines { lines_left words.new ≡ lines_left words.old }
{
    let Some(word) = words.next_word() else {
        return Err(BlifFault::BadParam { line });
    };
    if words.next_word().is_some() {
        return Err(BlifFault::BadParam { line });
    }
    if !is_contents(word) {
        return Err(BlifFault::BadParam { line });
    }
    Ok(())
}

// Looks at INIT_FILE, which must name no file.
fn file(line: u32, words: &mut Cursor<'_>) -> Result<(), BlifFault>
    ensures value { Gives (λ _. true) result (file_says line (words_left words.old)) }
    ensures lines { lines_left words.new ≡ lines_left words.old }
{
    let Some(word) = words.next_word() else {
        return Err(BlifFault::BadParam { line });
    };
    if words.next_word().is_some() {
        return Err(BlifFault::BadParam { line });
    }
    if word != b"\"\"".as_slice() {
        return Err(BlifFault::BadParam { line });
    }
    Ok(())
}

// Looks at a parameter of a RAM. Its value is read where RAMs are.
fn memory(line: u32, name: &[u8], words: &mut Cursor<'_>) -> Result<(), BlifFault>
    ensures value { Gives (λ _. true) result (memory_says line name.now (words_left words.old)) }
    ensures lines { lines_left words.new ≡ lines_left words.old }
{
    if row_named(name).is_some() {
        return contents(line, words);
    }
    if name == b"READ_MODE".as_slice() || name == b"WRITE_MODE".as_slice() {
        let _mode = bits(4, line, words)?;
        return Ok(());
    }
    if name == b"INIT_FILE".as_slice() {
        return file(line, words);
    }
    Ok(())
}

// A look-up table with a parameter.
fn lut(line: u32, table: u16, name: &[u8], words: &mut Cursor<'_>) -> Result<CellKind, BlifFault>
    ensures kind { Gives (λ kind. kind) result
        (lut_says line table name.now (words_left words.old)) }
    ensures form { IfOk result (KeepsForm (CellKind.Lut table)) }
    ensures lines { lines_left words.new ≡ lines_left words.old }
{
    if name != b"LUT_INIT".as_slice() {
        return Ok(CellKind::Lut { table });
    }
    let table = bits(VALUES, line, words)? as u16;
    Ok(CellKind::Lut { table })
}

// The buffers of a pad with a parameter.
fn pad(
    line: u32,
    pin_type: u8,
    pullup: bool,
    name: &[u8],
    words: &mut Cursor<'_>,
) -> Result<CellKind, BlifFault>
    ensures kind { Gives (λ kind. kind) result
        (pad_says line pin_type pullup name.now (words_left words.old)) }
    ensures form { IfOk result (KeepsForm (CellKind.PadCell pin_type pullup)) }
    ensures lines { lines_left words.new ≡ lines_left words.old }
{
    if name == b"PIN_TYPE".as_slice() {
        let pin_type = bits(64, line, words)? as u8;
        return Ok(CellKind::PadCell { pin_type, pullup });
    }
    if name == b"PULLUP".as_slice() {
        let pullup = bits(2, line, words)? == 1;
        return Ok(CellKind::PadCell { pin_type, pullup });
    }
    if name == b"NEG_TRIGGER".as_slice() {
        let _zero = bits(1, line, words)?;
        return Ok(CellKind::PadCell { pin_type, pullup });
    }
    if name == b"IO_STANDARD".as_slice() {
        let _allowed = standard(line, words)?;
        return Ok(CellKind::PadCell { pin_type, pullup });
    }
    Ok(CellKind::PadCell { pin_type, pullup })
}

// A kind with a parameter.
fn kind(
    line: u32,
    before: CellKind,
    name: &[u8],
    words: &mut Cursor<'_>,
) -> Result<CellKind, BlifFault>
    ensures kind { Gives (λ kind. kind) result
        (kind_says line before name.now (words_left words.old)) }
    ensures form { IfOk result (KeepsForm before) }
    ensures lines { lines_left words.new ≡ lines_left words.old }
{
    match before {
        CellKind::Lut { table } => lut(line, table, name, words),
        CellKind::PadCell { pin_type, pullup } => pad(line, pin_type, pullup, name, words),
        _ => Ok(before),
    }
}

/// Reads the words behind `.param`, for the cell that was made last.
#[tactic(auto, using(crate::proofs::KindForms::with_kind_formed))]
pub(crate) fn param(last: &mut Last, line: u32, words: &mut Cursor<'_>) -> Result<(), BlifFault>
    ensures last { Gives (λ _. last_view last.new) result
        (param_says line (last_view last.old) (words_left words.old)) }
    ensures formed { OnOk result ((signals : ℕ) → IsFormedLast signals (last_view last.old)
        → IsFormedLast signals (last_view last.new)) }
    ensures lines { lines_left words.new ≡ lines_left words.old }
{
    let Some(name) = words.next_word() else {
        return Ok(());
    };
    match last {
        Last::Gate(cell) => {
            cell.kind = kind(line, cell.kind, name, words)?;
            Ok(())
        }
        Last::Memory => memory(line, name, words),
        _ => Ok(()),
    }
}
