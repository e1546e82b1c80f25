//! The report on routing.
ghost use Rattle.std.specs.Prelude.{◌≡◌, ◌++◌, ◌∷◌, [], OnOk, OnErr, map, codes, decimal};
ghost use Rattle.std.specs.List.{flat_map};
ghost use Rattle.ice_base.specs.Lines.{text_of_lines};
ghost use Rattle.ice_report.specs.Lines.{line_of};
ghost use Rattle.ice_report.specs.RouteReport.{sizes_line, title_line, wire_line, rows_line, net_line, round_lines, end_line, route_text};

use crate::text::{put_line, put_number, put_word};
use ice_base::{NetNo, NoMemory, RowNo, WireNo};
use ice_core::RoundLog;
use ice_graph::Tree;

// Writes a word and a number behind words.
fn put_count(text: &mut Vec<u8>, title: &[u8], count: u32) -> Result<(), NoMemory>
    ensures { OnOk result
        (text.new.items ≡ text.old.items ++ (32 ∷ (title.now ++ (32 ∷ decimal count)))) }
{
    put_word(text, title)?;
    put_number(text, u64::from(count))
}

// Writes the line of the sizes of a design.
fn put_sizes(text: &mut Vec<u8>, cells: u32, tiles: u32, nets: u32) -> Result<(), NoMemory>
    ensures { OnOk result
        (text.new.items ≡ text.old.items ++ text_of_lines (sizes_line cells tiles nets ∷ [])) }
{
    text.extend_from_slice(b"cells")?;
    put_number(text, u64::from(cells))?;
    put_count(text, b"tiles", tiles)?;
    put_count(text, b"nets", nets)?;
    text.push(b'\n')?;
    Ok(())
}

// Writes the first line of a round, or that of the opening, which has the number 0.
fn put_title(text: &mut Vec<u8>, round: u32) -> Result<(), NoMemory>
    ensures { OnOk result
        (text.new.items ≡ text.old.items ++ text_of_lines (title_line round ∷ [])) }
{
    if round == 0 {
        return put_line(text, b"opening");
    }
    text.extend_from_slice(b"round")?;
    put_number(text, u64::from(round))?;
    text.push(b'\n')?;
    Ok(())
}

// Writes the line of a wire with a number of it.
fn put_wire(text: &mut Vec<u8>, title: &[u8], wire: WireNo, number: u64) -> Result<(), NoMemory>
    ensures { OnOk result (text.new.items
        ≡ text.old.items ++ text_of_lines (wire_line title.now (wire, number) ∷ [])) }
{
    text.extend_from_slice(title)?;
    put_number(text, u64::from(wire.0))?;
    put_number(text, number)?;
    text.push(b'\n')?;
    Ok(())
}

// Writes the line of a wire that had been overused before.
fn put_history(text: &mut Vec<u8>, entry: &(WireNo, u64)) -> Result<(), NoMemory>
    ensures { OnOk result (text.new.items
        ≡ text.old.items ++ text_of_lines (wire_line (codes "history") entry.now ∷ [])) }
{
    put_wire(text, b"history", entry.0, entry.1)
}

// Writes the line of a wire that is overused.
fn put_over(text: &mut Vec<u8>, entry: &(WireNo, u32)) -> Result<(), NoMemory>
    ensures { OnOk result (text.new.items
        ≡ text.old.items ++ text_of_lines (wire_line (codes "over") entry.now ∷ [])) }
{
    put_wire(text, b"over", entry.0, u64::from(entry.1))
}

// Writes the wires that had been overused before.
fn put_histories(text: &mut Vec<u8>, history: &[(WireNo, u64)]) -> Result<(), NoMemory>
    ensures { OnOk result (text.new.items
        ≡ text.old.items ++ text_of_lines (map (wire_line (codes "history")) history.now)) }
{
    for entry in history {
        put_history(text, entry)?;
    }
    Ok(())
}

// Writes the wires that are overused.
fn put_overused(text: &mut Vec<u8>, over: &[(WireNo, u32)]) -> Result<(), NoMemory>
    ensures { OnOk result (text.new.items
        ≡ text.old.items ++ text_of_lines (map (wire_line (codes "over")) over.now)) }
{
    for entry in over {
        put_over(text, entry)?;
    }
    Ok(())
}

// Writes the rows of a tree behind words.
fn put_rows(text: &mut Vec<u8>, rows: &[RowNo]) -> Result<(), NoMemory>
    ensures { OnOk result (text.new.items
        ≡ text.old.items ++ flat_map (λ word. 32 ∷ word) (map (λ row. decimal row.0) rows.now)) }
{
    for row in rows {
        put_number(text, u64::from(row.0))?;
    }
    Ok(())
}

// Writes the line of a net with the rows of its tree.
fn put_rows_of(text: &mut Vec<u8>, net: NetNo, rows: &[RowNo]) -> Result<(), NoMemory>
    ensures { OnOk result
        (text.new.items ≡ text.old.items ++ text_of_lines (rows_line net rows.now ∷ [])) }
{
    text.extend_from_slice(b"net")?;
    put_number(text, u64::from(net.0))?;
    put_word(text, b"rows")?;
    put_rows(text, rows)?;
    text.push(b'\n')?;
    Ok(())
}

// Writes the line of a net that moved.
fn put_net(text: &mut Vec<u8>, entry: &(NetNo, Tree)) -> Result<(), NoMemory>
    ensures { OnOk result
        (text.new.items ≡ text.old.items ++ text_of_lines (net_line entry.now ∷ [])) }
{
    put_rows_of(text, entry.0, &entry.1.rows)
}

// Writes the nets that moved.
fn put_nets(text: &mut Vec<u8>, moved: &[(NetNo, Tree)]) -> Result<(), NoMemory>
    ensures { OnOk result
        (text.new.items ≡ text.old.items ++ text_of_lines (map net_line moved.now)) }
{
    for entry in moved {
        put_net(text, entry)?;
    }
    Ok(())
}

// Writes the lines of a round.
fn put_round(text: &mut Vec<u8>, log: &RoundLog) -> Result<(), NoMemory>
    ensures { OnOk result (text.new.items ≡ text.old.items ++ text_of_lines (round_lines log.now)) }
{
    put_title(text, log.round)?;
    put_histories(text, &log.history)?;
    put_nets(text, &log.moved)?;
    put_overused(text, &log.over)?;
    Ok(())
}

// Writes the lines of all rounds.
fn put_rounds(text: &mut Vec<u8>, logs: &[RoundLog]) -> Result<(), NoMemory>
    ensures { OnOk result
        (text.new.items ≡ text.old.items ++ text_of_lines (flat_map round_lines logs.now)) }
{
    for log in logs {
        put_round(text, log)?;
    }
    Ok(())
}

// Writes how routing ended.
fn put_end(text: &mut Vec<u8>, routed: bool) -> Result<(), NoMemory>
    ensures { OnOk result
        (text.new.items ≡ text.old.items ++ text_of_lines (end_line routed ∷ [])) }
{
    if routed {
        put_line(text, b"routed")
    } else {
        put_line(text, b"gave up")
    }
}

// Writes the text of the report.
fn put_report(
    text: &mut Vec<u8>,
    cells: u32,
    tiles: u32,
    nets: u32,
    logs: &[RoundLog],
    routed: bool,
) -> Result<(), NoMemory>
    ensures { OnOk result
        (text.new.items ≡ text.old.items ++ route_text cells tiles nets logs.now routed) }
{
    put_sizes(text, cells, tiles, nets)?;
    put_rounds(text, logs)?;
    put_end(text, routed)?;
    Ok(())
}

/// Appends the report on routing: how many cells the design has, how many tiles it needs and how many nets; for each round its
/// number, the wires that had been overused before with their histories, the nets that moved with the rows of their new trees
/// in the order of addition, and the wires that more than one net holds after it; and whether the nets were routed in the
/// end. The text is made apart from what it is appended to, so that want of memory changes nothing.
///
/// # Errors
/// Want of memory alone.
pub fn route_report(
    cells: u32,
    tiles: u32,
    nets: u32,
    logs: &[RoundLog],
    routed: bool,
    out: &mut Vec<u8>,
) -> Result<(), NoMemory>
    ensures ok { OnOk result
        (out.new.items ≡ out.old.items ++ route_text cells tiles nets logs.now routed) }
    ensures err { OnErr result (out.new.items ≡ out.old.items) }
{
    let mut text = Vec::new(*out.allocator());
    put_report(&mut text, cells, tiles, nets, logs, routed)?;
    out.extend_from_slice(&text)?;
    Ok(())
}
