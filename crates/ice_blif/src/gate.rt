//! Cells of `.gate` and `.subckt` lines.
ghost use Rattle.std.specs.Prelude.{◌≡◌, ℕ, ◌+◌, ◌<◌, ◌≤◌, length, OnOk, IfOk, IfErr, IfSome, All};
ghost use Rattle.ice_net.specs.Formed.{IsBelow, IsGateKind};
ghost use Rattle.ice_blif.specs.declared.fault.BlifFault.TheVariants.{NoMemory as out_of_memory};
ghost use Rattle.ice_blif.specs.Answers.{Gives};
ghost use Rattle.ice_blif.specs.Cells.{IsReadCell, IsReady};
ghost use Rattle.ice_blif.specs.Grammar.{equals_at, is_missing, actual_signal, after_actual, connection_says, connections_say, no_wiring, cell_of, ram_says, ram_of_word, gate_says};
ghost use Rattle.ice_ram_words.specs.Words.{edges_of};
ghost use Rattle.ice_blif.specs.Views.{reader_view, wiring_view, words_left, lines_left};

use crate::BlifFault;
use crate::cursor::Cursor;
use crate::kind::{Formals, GateKind};
use crate::raw::RawNetlist;
use crate::reader::{Last, MOST_CELL_LINES, Reader, join};
use crate::wiring::Wiring;
use ice_base::SignalNo;
use ice_net::{Cell, Signals};
use ice_ram_words::{Edges, edges_named};
use std::alloc::Global;

/// Whether an actual makes no appearance: it is empty, or it is `$undef` at an output.
pub fn is_missing(output: bool, actual: &[u8]) -> bool
    ensures { result ≡ is_missing output actual.now }
{
    actual.is_empty() || (output && actual == b"$undef".as_slice())
}

// The signal of an actual.
fn actual_signal(
    netlist: &mut RawNetlist,
    output: bool,
    actual: &[u8],
) -> Result<Option<SignalNo>, BlifFault>
    ensures signal { IfOk result (λ signal. signal ≡ actual_signal netlist.old output actual.now) }
    ensures named { OnOk result (netlist.new ≡ after_actual netlist.old output actual.now) }
    ensures within { IfOk result (IsBelow (length netlist.new.names)) }
    ensures kept { length netlist.old.names ≤ length netlist.new.names }
    ensures memory { IfErr result (λ e. e ≡ out_of_memory) }
{
    if is_missing(output, actual) {
        return Ok(None);
    }
    let signal = netlist.number(actual)?;
    Ok(Some(signal))
}

/// The place of the first `=` of a word, behind which the actual of a connection stands.
#[tactic(auto, unfolding(crate::specs::Grammar::equals_at))]
pub fn equals_at(word: &[u8]) -> Option<usize>
    ensures place { result ≡ equals_at word.now }
    ensures within { IfSome result (λ at. at < length word.now) }
{
    word.iter().position(|b| *b == b'=')
}

// Reads one connection.
#[tactic(auto, using(crate::proofs::Wirings::wired_below))]
fn connection(
    netlist: &mut RawNetlist,
    wiring: &mut Wiring,
    line: u32,
    formals: Formals,
    word: &[u8],
) -> Result<(), BlifFault>
    requires { All (IsBelow (length netlist.old.names)) wiring.old.signals }
    ensures connection { Gives (λ _. (netlist.new, wiring_view wiring.new)) result
        (connection_says line formals netlist.old (wiring_view wiring.old) word.now) }
    ensures below { OnOk result (All (IsBelow (length netlist.new.names)) wiring.new.signals) }
    ensures kept { OnOk result (length netlist.old.names ≤ length netlist.new.names) }
    ensures cells { OnOk result (netlist.new.cells ≡ netlist.old.cells) }
{
    let Some(at) = equals_at(word) else {
        return Err(BlifFault::UnknownPort { line });
    };
    let Some(place) = formals.place(&word[..at]) else {
        return Err(BlifFault::UnknownPort { line });
    };
    let output = place >= formals.ins_count();
    let signal = actual_signal(netlist, output, &word[at + 1..])?;
    wiring.connect(place, signal);
    Ok(())
}

// Reads the connections of a line.
fn connections(
    netlist: &mut RawNetlist,
    line: u32,
    formals: Formals,
    words: &mut Cursor<'_>,
) -> Result<Wiring, BlifFault>
    ensures connections { Gives (λ wiring. (netlist.new, wiring_view wiring)) result
        (connections_say line formals netlist.old no_wiring (words_left words.old)) }
    ensures below { IfOk result (λ wiring.
        All (IsBelow (length netlist.new.names)) wiring.signals) }
    ensures kept { OnOk result (length netlist.old.names ≤ length netlist.new.names) }
    ensures cells { OnOk result (netlist.new.cells ≡ netlist.old.cells) }
    ensures lines { lines_left words.new ≡ lines_left words.old }
{
    let mut wiring = Wiring::new();
    while let Some(word) = words.next_word() {
        connection(netlist, &mut wiring, line, formals, word)?;
    }
    if wiring.twice {
        return Err(BlifFault::PortTwice { line });
    }
    Ok(wiring)
}

// The cell of a gate with its connections.
#[tactic(auto, using(crate::proofs::Wirings::gate_ports_fit, crate::proofs::Wirings::gate_formed))]
fn cell(alloc: Global, line: u32, gate: GateKind, wiring: &Wiring) -> Result<Cell, BlifFault>
    requires { IsGateKind gate.kind }
    ensures cell { IfOk result (λ cell. cell ≡ cell_of line gate (wiring_view wiring.now)) }
    ensures formed { IfOk result (λ cell.
        (signals : ℕ) → All (IsBelow signals) wiring.now.signals → IsReadCell signals cell) }
    ensures memory { IfErr result (λ e. e ≡ out_of_memory) }
{
    let (ins, behind) = wiring.signals.split_at(gate.kind.ins_count());
    let (outs, _) = behind.split_at(gate.outs_count());
    let ins = Vec::from_slice(alloc, ins)?;
    let outs = Vec::from_slice(alloc, outs)?;
    Ok(Cell {
        kind: gate.kind,
        line,
        ins: Signals::from_vec(ins),
        outs: Signals::from_vec(outs),
    })
}

// Reads the connections of a RAM. It makes no cell here.
fn ram(
    reader: &mut Reader,
    line: u32,
    edges: Edges,
    words: &mut Cursor<'_>,
) -> Result<(), BlifFault>
    requires { IsReady MOST_CELL_LINES (reader_view reader.old) }
    ensures gate { Gives (λ _. reader_view reader.new) result
        (ram_says line (reader_view reader.old) (words_left words.old) edges) }
    ensures ready { OnOk result (IsReady (MOST_CELL_LINES + 1) (reader_view reader.new)) }
    ensures lines { lines_left words.new ≡ lines_left words.old }
{
    connections(&mut reader.netlist, line, Formals::OfRam(edges), words)?;
    join(reader, Last::Memory, false)
}

// Reads the words behind the kind of a gate that is no cell.
fn ram_named(
    reader: &mut Reader,
    line: u32,
    word: &[u8],
    words: &mut Cursor<'_>,
) -> Result<(), BlifFault>
    requires { IsReady MOST_CELL_LINES (reader_view reader.old) }
    ensures gate { Gives (λ _. reader_view reader.new) result
        (ram_of_word line (reader_view reader.old) (words_left words.old) (edges_of word.now)) }
    ensures ready { OnOk result (IsReady (MOST_CELL_LINES + 1) (reader_view reader.new)) }
    ensures lines { lines_left words.new ≡ lines_left words.old }
{
    let Some(edges) = edges_named(word) else {
        return Err(BlifFault::UnknownCell { line });
    };
    ram(reader, line, edges, words)
}

/// Reads the words behind `.gate` or `.subckt`.
pub(crate) fn gate(
    alloc: Global,
    reader: &mut Reader,
    line: u32,
    words: &mut Cursor<'_>,
) -> Result<(), BlifFault>
    requires { IsReady MOST_CELL_LINES (reader_view reader.old) }
    ensures gate { Gives (λ _. reader_view reader.new) result
        (gate_says line (reader_view reader.old) (words_left words.old)) }
    ensures ready { OnOk result (IsReady (MOST_CELL_LINES + 1) (reader_view reader.new)) }
    ensures lines { lines_left words.new ≡ lines_left words.old }
{
    let Some(word) = words.next_word() else {
        return Err(BlifFault::UnknownCell { line });
    };
    let Some(gate) = GateKind::named(word) else {
        return ram_named(reader, line, word, words);
    };
    let wiring = connections(&mut reader.netlist, line, Formals::OfGate(gate), words)?;
    let cell = cell(alloc, line, gate, &wiring)?;
    join(reader, Last::Gate(cell), false)
}
