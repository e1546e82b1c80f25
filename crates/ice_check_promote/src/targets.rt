//! What the readers of each signal read where clocks have buffers.
ghost use Rattle.std.specs.Prelude.{◌≡◌, ◌+◌, ◌<◌, ◌≤◌, ◌^◌, None, All, length, slice_index_or, IfOk};
ghost use Rattle.std.specs.List.{range_with_len};
ghost use Rattle.ice_net.specs.Drivers.{is_signal};
ghost use Rattle.ice_net.specs.Formed.{IsBelow, IsFormedCell};
ghost use Rattle.ice_check_promote.specs.Filling.{AreReadAs, AreTargets, clocked_cell};
ghost use Rattle.ice_check_promote.specs.Promoted.{buffered, buffered_pin, buffered_first, buffered_ins, is_outer, passes_out, passing_ins};

use ice_base::{NoMemory, SignalNo};
use ice_net::{Cell, CellKind, Signals};
use std::alloc::Global;

/// The clocks that have buffers, and what the readers of each signal read in their place.
#[derive(Drop)]
pub struct Targets {
    /// The number of signals without those of the buffers, and so the number of the first buffer's signal.
    pub count: u32,
    /// The clocks, in the order of their buffers.
    pub clocks: Vec<u32>,
    /// The signal that is read, by the number of the signal.
    pub table: Vec<u32>,
}

// Each of so many signals by its own number.
#[tactic(auto, using(crate::proofs::Redirected::numbers_more))]
fn own_numbers(alloc: Global, count: u32) -> Result<Vec<u32>, NoMemory>
    ensures { IfOk result (λ table. table.items ≡ range_with_len 0 count) }
{
    let mut table = Vec::new(alloc);
    for signal in 0..count {
        table.push(signal)?;
    }
    Ok(table)
}

// Puts the signals of the buffers in the place of the clocks.
#[tactic(auto, using(crate::proofs::Redirected::none_redirected, crate::proofs::Redirected::more_redirected, crate::proofs::Redirected::all_redirected))]
fn put_buffers(table: &mut Vec<u32>, count: u32, clocks: &[u32])
    requires own { table.old.items ≡ range_with_len 0 count }
    requires below { All (λ clock. clock < count) clocks.now }
    requires few { count + length clocks.now < 2 ^ 32 }
    ensures { AreReadAs count clocks.now table.new.items }
{
    for place in (0..clocks.len()).rev() {
        table[clocks[place] as usize] = count + place as u32;
    }
}

// Whether a signal is the one of this number.
fn is_signal(number: u32, pin: Option<SignalNo>) -> bool
    ensures { result ≡ is_signal number pin }
{
    match pin {
        Some(signal) => signal.0 == number,
        None => false,
    }
}

// Whether a signal is one of the outer clocks.
fn is_outer(outer: &[SignalNo], pin: Option<SignalNo>) -> bool
    ensures { result ≡ is_outer outer.now pin }
{
    outer.iter().any(|signal| is_signal(signal.0, pin))
}

// Whether a cover passes its one input on to an outer clock, by its outputs.
fn passes_out(outer: &[SignalNo], table: u16, width: u8, outs: &[Option<SignalNo>]) -> bool
    ensures { result ≡ passes_out outer.now table width outs.now }
{
    let out = match outs.get(0) {
        Some(signal) => *signal,
        None => None,
    };
    width == 1 && table == 2 && is_outer(outer, out)
}

impl Targets {
    /// What is read where these clocks of so many signals have buffers.
    ///
    /// # Errors
    /// Want of memory alone.
    pub fn new(alloc: Global, count: u32, clocks: Vec<u32>) -> Result<Targets, NoMemory>
        requires below { All (λ clock. clock < count) clocks.items }
        requires few { count + length clocks.items < 2 ^ 32 }
        ensures targets { IfOk result AreTargets }
        ensures count { IfOk result (λ targets. targets.count ≡ count) }
        ensures clocks { IfOk result (λ targets. targets.clocks ≡ clocks) }
    {
        let mut table = own_numbers(alloc, count)?;
        put_buffers(&mut table, count, &clocks);
        Ok(Targets {
            count,
            clocks,
            table,
        })
    }

    // What a reader of a signal reads.
    fn pin(&self, pin: Option<SignalNo>) -> Option<SignalNo>
        requires targets { AreTargets self.now }
        requires below { IsBelow self.now.count pin }
        ensures { result ≡ buffered_pin self.now.count self.now.clocks.items pin }
    {
        match pin {
            Some(signal) => Some(SignalNo(self.table[signal.0 as usize])),
            None => None,
        }
    }

    // Lets the first input read the buffer's signal.
    fn put_first(&self, ins: &mut Vec<Option<SignalNo>>)
        requires targets { AreTargets self.now }
        requires below { All (IsBelow self.now.count) ins.old.items }
        ensures { ins.new.items
            ≡ buffered_first self.now.count self.now.clocks.items ins.old.items }
    {
        if let Some(pin) = ins.get(0) {
            let pin = self.pin(*pin);
            ins[0] = pin;
        }
    }

    // Lets the clock input of a cell of this kind and with these outputs read the buffer's signal.
    fn put_clock(
        &self,
        outer: &[SignalNo],
        kind: CellKind,
        outs: &[Option<SignalNo>],
        ins: &mut Vec<Option<SignalNo>>,
    )
        requires targets { AreTargets self.now }
        requires below { All (IsBelow self.now.count) ins.old.items }
        ensures { ins.new.items ≡ passing_ins self.now.count self.now.clocks.items outer.now kind outs.now
            (buffered_ins self.now.count self.now.clocks.items kind ins.old.items) }
    {
        match kind {
            CellKind::Flop { .. } => self.put_first(ins),
            CellKind::Cover { table, width } => {
                if passes_out(outer, table, width, outs) {
                    self.put_first(ins);
                }
            }
            _ => {}
        }
    }

    /// The cell, of which the clock input reads the buffer's signal where it is a flip-flop, or a cover that passes its input on to one
    /// of these outer clocks.
    ///
    /// # Errors
    /// Want of memory alone.
    pub fn cell(&self, alloc: Global, outer: &[SignalNo], cell: &Cell) -> Result<Cell, NoMemory>
        requires targets { AreTargets self.now }
        requires formed { IsFormedCell self.now.count cell.now }
        ensures { IfOk result (λ made.
            made ≡ clocked_cell self.now.count self.now.clocks.items outer.now cell.now) }
    {
        let mut ins = Vec::from_slice(alloc, cell.ins.as_slice())?;
        let outs = Vec::from_slice(alloc, cell.outs.as_slice())?;
        self.put_clock(outer, cell.kind, cell.outs.as_slice(), &mut ins);
        Ok(Cell {
            kind: cell.kind,
            line: cell.line,
            ins: Signals::from_vec(ins),
            outs: Signals::from_vec(outs),
        })
    }
}
