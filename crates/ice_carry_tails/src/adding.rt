//! Carries are added at look-up tables, first their names and then the cells.
ghost use Rattle.std.specs.Prelude.{◌≡◌, ◌+◌, ◌<◌, ◌≤◌, ◌^◌, All, length, map, IfOk, OnOk};
ghost use Rattle.ice_net.specs.Formed.{IsFormed, IsSingle};
ghost use Rattle.ice_net_additions.specs.Adding.{HasRoomForCells, HasRoomForNames, with_cells, with_names};
ghost use Rattle.ice_carry_tails.specs.TailLaws.{CanTakeTails};
ghost use Rattle.ice_carry_tails.specs.Tailable.{HasRoomForTails};
ghost use Rattle.ice_carry_tails.specs.Tails.{behind, read_behind, tail, tail_name, tail_names, tails, with_tails};

use ice_base::{NoMemory, SignalNo};
use ice_net::{Cell, CellKind, Netlist, Signals, signal_at};
use std::alloc::Global;

// The name of an added carry's signal.
fn tail_name(alloc: Global, name: &[u8]) -> Result<Vec<u8>, NoMemory>
    ensures { IfOk result (λ made. made.items ≡ tail_name name.now) }
{
    let mut made = Vec::from_slice(alloc, name)?;
    made.extend_from_slice(b" tail")?;
    Ok(made)
}

// Adds the names of the signals of so many carries.
#[tactic(auto, using(ice_net_additions::proofs::Added::names_none, ice_net_additions::proofs::Added::names_all, ice_net_additions::proofs::Added::names_room, crate::proofs::Grown::names_long))]
fn add_names(alloc: Global, netlist: &mut Netlist, count: u32) -> Result<(), NoMemory>
    requires few { count ≤ length netlist.old.names }
    requires room { HasRoomForNames netlist.old (tail_names netlist.old.names count) }
    ensures { OnOk result
        (netlist.new ≡ with_names netlist.old (tail_names netlist.old.names count)) }
{
    for signal in 0..count {
        let name = tail_name(alloc, netlist.name(SignalNo(signal)))?;
        netlist.signal(&name)?;
    }
    Ok(())
}

// A carry that reads what a cell does at its second, third and last input, and drives this signal.
fn tail_of(alloc: Global, cell: &Cell, out: u32) -> Result<Cell, NoMemory>
    ensures { IfOk result (λ made. made ≡ tail out (behind cell.now.ins)) }
{
    let ins = cell.ins.as_slice();
    let ins = vec![in alloc; signal_at(ins, 1), signal_at(ins, 2), signal_at(ins, 3)]?;
    let outs = vec![in alloc; Some(SignalNo(out))]?;
    Ok(Cell {
        kind: CellKind::Carry,
        line: 0,
        ins: Signals::from_vec(ins),
        outs: Signals::from_vec(outs),
    })
}

// Adds a carry at each of these tables, the first of which drives the signal of that number.
#[tactic(auto, using(ice_net_additions::proofs::Added::cells_none, ice_net_additions::proofs::Added::cells_all, ice_net_additions::proofs::Added::cells_room))]
fn add_tails(
    alloc: Global,
    netlist: &mut Netlist,
    first: u32,
    tables: &[usize],
) -> Result<(), NoMemory>
    requires few { first + length tables.now < 2 ^ 32 }
    requires below { All (λ table. table < length netlist.old.cells) tables.now }
    requires room { HasRoomForCells netlist.old
        (tails first (map (read_behind netlist.old.cells) tables.now)) }
    ensures { OnOk result (netlist.new
        ≡ with_cells netlist.old (tails first (map (read_behind netlist.old.cells) tables.now))) }
{
    for (place, table) in tables.iter().enumerate() {
        let cell = tail_of(alloc, &netlist.cells()[*table], first + place as u32)?;
        netlist.cell(cell)?;
    }
    Ok(())
}

/// The netlist with a carry at each of these tables. It takes time for what is added alone.
///
/// # Errors
/// Want of memory alone.
pub(crate) fn with_tails(
    alloc: Global,
    netlist: Netlist,
    tables: &[usize],
) -> Result<Netlist, NoMemory>
    requires formed { IsFormed netlist }
    requires single { IsSingle netlist }
    requires can { CanTakeTails netlist tables.now }
    requires room { HasRoomForTails netlist }
    ensures { IfOk result (λ made. made ≡ with_tails netlist tables.now) }
{
    let count = netlist.signals();
    let mut made = netlist;
    add_names(alloc, &mut made, tables.len() as u32)?;
    add_tails(alloc, &mut made, count, tables)?;
    Ok(made)
}
