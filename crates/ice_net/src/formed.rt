//! Whether cells are well formed.
ghost use Rattle.std.specs.Prelude.{◌↔◌, ◌^◌, ◌<◌, ◌≤◌, IsTrue, All};
ghost use Rattle.ice_net.specs.Formed.{IsBelow, IsPresent, IsFormedCell, IsFormedCover, IsFormedKind};

use crate::{Cell, CellKind};
use ice_base::SignalNo;

// Whether a signal is missing or a number of a netlist of so many signals.
fn is_below(signals: u32, signal: Option<SignalNo>) -> bool
    ensures { IsTrue result ↔ IsBelow signals signal }
{
    match signal {
        None => true,
        Some(signal) => signal.0 < signals,
    }
}

// Whether a signal is there and a number of a netlist of so many signals.
fn is_present(signals: u32, signal: Option<SignalNo>) -> bool
    ensures { IsTrue result ↔ IsPresent signals signal }
{
    match signal {
        None => false,
        Some(signal) => signal.0 < signals,
    }
}

#[tactic(auto, using(crate::proofs::SignalLists::below_seen, crate::proofs::SignalLists::below_all, crate::proofs::SignalLists::not_below))]
fn are_below(signals: u32, list: &[Option<SignalNo>]) -> bool
    ensures { IsTrue result ↔ All (IsBelow signals) list.now }
{
    for signal in list {
        if !is_below(signals, *signal) {
            return false;
        }
    }
    true
}

#[tactic(auto, using(crate::proofs::SignalLists::present_seen, crate::proofs::SignalLists::present_all, crate::proofs::SignalLists::not_present))]
fn are_present(signals: u32, list: &[Option<SignalNo>]) -> bool
    ensures { IsTrue result ↔ All (IsPresent signals) list.now }
{
    for signal in list {
        if !is_present(signals, *signal) {
            return false;
        }
    }
    true
}

// Whether a table has bits only for the numbers of the levels of so many inputs.
fn table_fits(table: u16, width: u8) -> bool
    requires { width ≤ 4 }
    ensures { IsTrue result ↔ (table < 2 ^ (2 ^ width)) }
{
    match width {
        0 => table < 2,
        1 => table < 4,
        2 => table < 16,
        3 => table < 256,
        _ => true,
    }
}

// Whether a cover is well formed.
fn is_formed_cover(
    signals: u32,
    table: u16,
    width: u8,
    ins: &[Option<SignalNo>],
    outs: &[Option<SignalNo>],
) -> bool
    ensures { IsTrue result ↔ IsFormedCover signals table width ins.now outs.now }
{
    if width > 4 {
        return false;
    }
    if !table_fits(table, width) {
        return false;
    }
    if !are_present(signals, ins) {
        return false;
    }
    are_present(signals, outs)
}

// Whether a kind's parameters are well formed; the signals of a cover are there.
fn is_formed_kind(
    signals: u32,
    kind: CellKind,
    ins: &[Option<SignalNo>],
    outs: &[Option<SignalNo>],
) -> bool
    ensures { IsTrue result ↔ IsFormedKind signals kind ins.now outs.now }
{
    match kind {
        CellKind::Cover { table, width } => is_formed_cover(signals, table, width, ins, outs),
        CellKind::PadCell { pin_type, .. } => pin_type < 64,
        _ => true,
    }
}

impl Cell {
    /// Whether the cell is well formed in a netlist of so many signals: it has the inputs and outputs of its kind, which
    /// are missing or numbers of the netlist, and its parameters are in range. It takes no memory.
    pub fn is_formed(&self, signals: u32) -> bool
        ensures { IsTrue result ↔ IsFormedCell signals self.now }
    {
        let ins = self.ins.as_slice();
        let outs = self.outs.as_slice();
        if ins.len() != self.kind.ins_count() {
            return false;
        }
        if outs.len() != self.kind.outs_count() {
            return false;
        }
        if !are_below(signals, ins) {
            return false;
        }
        if !are_below(signals, outs) {
            return false;
        }
        is_formed_kind(signals, self.kind, ins, outs)
    }
}
