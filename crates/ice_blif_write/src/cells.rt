//! Writing the cells of a netlist.
ghost use Rattle.std.specs.Prelude.{◌≡◌, ℕ, ◌<◌, ◌≤◌, ◌+◌, ◌^◌, ◌∷◌, [], ◌++◌, length, map, drop, All, OnOk, Some, slice_index_or};
ghost use Rattle.std.specs.List.{flat_map};
ghost use Rattle.ice_base.specs.Lines.{text_of_lines};
ghost use Rattle.ice_net.specs.Formed.{IsBelow, IsFormedCell};
ghost use Rattle.ice_net.specs.Meaning.{table_bit};
ghost use Rattle.ice_blif_write.specs.RoundTrip.{IsSmallKind, IsSmallCell};
ghost use Rattle.ice_blif_write.specs.Writing.{IsFormedBelow};
ghost use Rattle.ice_blif_write.specs.Text.{line_of, behind_space, name_of, signal_words, connection, connections, port_names, gate_line, first_line, param_line, digits_of, row_line, entry_lines, rows_from, lines_below, cell_lines};

use crate::formal::port_name;
use crate::line::{end_line, put_word};
use crate::words::{put_digits, put_kind, put_levels};
use ice_base::{NoMemory, SignalNo};
use ice_net::{Cell, CellKind, Netlist};

// Writes FORMAL=ACTUAL behind a space, where the signal is there.
fn put_connection(
    out: &mut Vec<u8>,
    netlist: &Netlist,
    formal: &[u8],
    signal: Option<SignalNo>,
) -> Result<(), NoMemory>
    requires { IsBelow (length netlist.now.names) signal }
    ensures { OnOk result (out.new.items
        ≡ out.old.items ++ flat_map behind_space (connection netlist.now.names formal.now signal)) }
{
    let Some(signal) = signal else {
        return Ok(());
    };
    put_word(out, formal)?;
    out.push(b'=')?;
    out.extend_from_slice(netlist.name(signal))?;
    Ok(())
}

// Writes the signals that are there, the first of which is at the port of this place.
fn put_connections(
    out: &mut Vec<u8>,
    netlist: &Netlist,
    kind: CellKind,
    first: usize,
    signals: &[Option<SignalNo>],
) -> Result<(), NoMemory>
    requires places { first + length signals.now ≤ length (port_names kind) }
    requires below { All (IsBelow (length netlist.now.names)) signals.now }
    ensures { OnOk result (out.new.items ≡ out.old.items ++ flat_map behind_space
        (connections netlist.now.names (drop first (port_names kind)) signals.now)) }
{
    for (place, signal) in signals.iter().enumerate() {
        put_connection(out, netlist, port_name(kind, first + place), *signal)?;
    }
    Ok(())
}

// Writes the first line of a gate.
fn put_gate(
    out: &mut Vec<u8>,
    netlist: &Netlist,
    kind: CellKind,
    ins: &[Option<SignalNo>],
    outs: &[Option<SignalNo>],
) -> Result<(), NoMemory>
    requires places { length ins.now + length outs.now ≤ length (port_names kind) }
    requires ins { All (IsBelow (length netlist.now.names)) ins.now }
    requires outs { All (IsBelow (length netlist.now.names)) outs.now }
    ensures { OnOk result (out.new.items ≡ out.old.items
        ++ text_of_lines (map line_of (gate_line netlist.now.names kind ins.now outs.now ∷ []))) }
{
    out.extend_from_slice(b".gate ")?;
    put_kind(out, kind)?;
    put_connections(out, netlist, kind, 0, ins)?;
    put_connections(out, netlist, kind, ins.len(), outs)?;
    end_line(out)?;
    Ok(())
}

// Writes the names of the signals that are there.
fn put_signals(
    out: &mut Vec<u8>,
    netlist: &Netlist,
    signals: &[Option<SignalNo>],
) -> Result<(), NoMemory>
    requires { All (IsBelow (length netlist.now.names)) signals.now }
    ensures { OnOk result (out.new.items ≡ out.old.items
        ++ flat_map behind_space (flat_map (signal_words netlist.now.names) signals.now)) }
{
    for signal in signals {
        if let Some(signal) = signal {
            put_word(out, netlist.name(*signal))?;
        }
    }
    Ok(())
}

// Writes the first line of a cover.
fn put_names(
    out: &mut Vec<u8>,
    netlist: &Netlist,
    ins: &[Option<SignalNo>],
    outs: &[Option<SignalNo>],
) -> Result<(), NoMemory>
    requires ins { All (IsBelow (length netlist.now.names)) ins.now }
    requires outs { All (IsBelow (length netlist.now.names)) outs.now }
    ensures { OnOk result (out.new.items ≡ out.old.items ++ text_of_lines
        (map line_of (first_line netlist.now.names (CellKind.Cover 0 0) ins.now outs.now ∷ []))) }
{
    out.extend_from_slice(b".names")?;
    put_signals(out, netlist, ins)?;
    put_signals(out, netlist, outs)?;
    end_line(out)?;
    Ok(())
}

// Writes a parameter with so many digits.
fn put_param(out: &mut Vec<u8>, name: &[u8], width: u8, number: u16) -> Result<(), NoMemory>
    requires { width ≤ 16 }
    ensures { OnOk result (out.new.items ≡ out.old.items
        ++ text_of_lines (map line_of (param_line name.now (digits_of width number) ∷ []))) }
{
    out.extend_from_slice(b".param")?;
    put_word(out, name)?;
    out.push(b' ')?;
    put_digits(out, width, number)?;
    end_line(out)?;
    Ok(())
}

// Writes the row of the levels with a number.
fn put_row(out: &mut Vec<u8>, width: u8, number: u16) -> Result<(), NoMemory>
    ensures { OnOk result (out.new.items
        ≡ out.old.items ++ text_of_lines (map line_of (row_line width number ∷ []))) }
{
    if width == 0 {
        out.push(b'1')?;
        end_line(out)?;
        return Ok(());
    }
    put_levels(out, width, number)?;
    out.extend_from_slice(b" 1")?;
    end_line(out)?;
    Ok(())
}

// Writes the row of the levels with a number, where a table has a bit for it.
fn put_entry(out: &mut Vec<u8>, table: u16, width: u8, number: u16) -> Result<(), NoMemory>
    requires { number < 16 }
    ensures { OnOk result (out.new.items
        ≡ out.old.items ++ text_of_lines (map line_of (entry_lines table width number))) }
{
    if !has_bit(table, number) {
        return Ok(());
    }
    put_row(out, width, number)?;
    Ok(())
}

// How many numbers the levels of so many inputs have.
fn numbers(width: u8) -> u16
    requires { width ≤ 4 }
    ensures value { result ≡ 2 ^ width }
    ensures few { result ≤ 16 }
{
    match width {
        0 => 1,
        1 => 2,
        2 => 4,
        3 => 8,
        _ => 16,
    }
}

// Whether a table has a bit for a number of levels.
fn has_bit(table: u16, number: u16) -> bool
    requires { number < 16 }
    ensures { result ≡ table_bit table number }
{
    (table >> number) % 2 == 1
}

// Writes a row for each number of levels for which a table has a bit.
fn put_rows(out: &mut Vec<u8>, table: u16, width: u8) -> Result<(), NoMemory>
    requires { width ≤ 4 }
    ensures { OnOk result (out.new.items
        ≡ out.old.items ++ text_of_lines (map line_of (rows_from table width 0 (2 ^ width)))) }
{
    for number in 0..numbers(width) {
        put_entry(out, table, width, number)?;
    }
    Ok(())
}

// Writes the lines below a cell's first.
fn put_below(out: &mut Vec<u8>, kind: CellKind) -> Result<(), NoMemory>
    requires { IsFormedBelow kind }
    ensures small { OnOk result (IsSmallKind kind) }
    ensures written { OnOk result
        (out.new.items ≡ out.old.items ++ text_of_lines (map line_of (lines_below kind))) }
{
    match kind {
        CellKind::Lut { table } => put_param(out, b"LUT_INIT", 16, table),
        CellKind::Cover { table, width } => put_rows(out, table, width),
        CellKind::PadCell { pin_type, pullup } => {
            put_param(out, b"PIN_TYPE", 6, u16::from(pin_type))?;
            put_param(out, b"PULLUP", 1, u16::from(pullup))
        }
        _ => Ok(()),
    }
}

// Writes the first line of a cell.
fn put_first(out: &mut Vec<u8>, netlist: &Netlist, cell: &Cell) -> Result<(), NoMemory>
    requires { IsFormedCell (length netlist.now.names) cell.now }
    ensures { OnOk result (out.new.items ≡ out.old.items ++ text_of_lines (map line_of
        (first_line netlist.now.names cell.now.kind cell.now.ins cell.now.outs ∷ []))) }
{
    let ins = cell.ins.as_slice();
    let outs = cell.outs.as_slice();
    if let CellKind::Cover { .. } = cell.kind {
        put_names(out, netlist, ins, outs)?;
        return Ok(());
    }
    put_gate(out, netlist, cell.kind, ins, outs)?;
    Ok(())
}

// Writes a cell: its first line, and the lines below it.
fn put_cell(out: &mut Vec<u8>, netlist: &Netlist, cell: &Cell) -> Result<(), NoMemory>
    requires { IsFormedCell (length netlist.now.names) cell.now }
    ensures small { OnOk result (IsSmallCell cell.now) }
    ensures written { OnOk result (out.new.items
        ≡ out.old.items ++ text_of_lines (map line_of (cell_lines netlist.now.names cell.now))) }
{
    put_first(out, netlist, cell)?;
    put_below(out, cell.kind)?;
    Ok(())
}

// Writes the cells in order.
pub(crate) fn put_cells(
    out: &mut Vec<u8>,
    netlist: &Netlist,
    cells: &[Cell],
) -> Result<(), NoMemory>
    requires { All (IsFormedCell (length netlist.now.names)) cells.now }
    ensures small { OnOk result (All IsSmallCell cells.now) }
    ensures written { OnOk result (out.new.items ≡ out.old.items
        ++ text_of_lines (map line_of (flat_map (cell_lines netlist.now.names) cells.now))) }
{
    for cell in cells {
        put_cell(out, netlist, cell)?;
    }
    Ok(())
}
