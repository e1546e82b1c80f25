//! Which look-up tables get a carry.
ghost use Rattle.std.specs.Prelude.{◌≡◌, ◌+◌, ◌-◌, ◌++◌, ◌∷◌, [], ◌<◌, min, All, length, take, slice_index_or, true, None, IfOk, OnOk, if◌then◌else◌};
ghost use Rattle.std.specs.List.{filter, range_with_len};
ghost use Rattle.ice_net.specs.Formed.{IsBelow, IsFormed};
ghost use Rattle.ice_cells.specs.Origins.{origins};
ghost use Rattle.ice_cells.specs.Packed.{has_level};
ghost use Rattle.ice_cells.specs.Tables.{is_place};
ghost use Rattle.ice_check.specs.Tables.{AreDrivers, AreTimes};
ghost use Rattle.ice_carry_tails.specs.Ends.{all_read, can_share, chain_ends, ends_chain, is_carry, is_carry_out, is_end, is_free, is_free_by, is_last_carry, most_tails, own, own_ends, reads_one_by, tables_of};
ghost use Rattle.ice_carry_tails.specs.TailLaws.{is_lut};

use crate::reading::reads_of;
use ice_base::{NoMemory, SignalNo};
use ice_cells::Origin;
use ice_check::Sound;
use ice_net::{Cell, CellKind, MOST_SIGNALS, Netlist, SignalDriver, signal_at};
use ice_pack_share::{bare_outputs, facts_of, homes_of, luts_behind, origins};
use std::alloc::Global;

fn is_lut(kind: CellKind) -> bool
    ensures { result ≡ is_lut kind }
{
    matches!(kind, CellKind::Lut { .. })
}

fn is_carry(kind: CellKind) -> bool
    ensures { result ≡ is_carry kind }
{
    matches!(kind, CellKind::Carry)
}

// Whether a carry's output is this driver.
fn is_carry_out(netlist: &Netlist, driver: SignalDriver) -> bool
    ensures { result ≡ is_carry_out netlist.now driver }
{
    let SignalDriver::Output(i) = driver else {
        return false;
    };
    match netlist.cells().get(i) {
        Some(cell) => is_carry(cell.kind),
        None => false,
    }
}

// Whether a carry drives the signal, which is read once in all.
fn is_last_carry(
    netlist: &Netlist,
    drivers: &[SignalDriver],
    reads: &[usize],
    signal: Option<SignalNo>,
) -> bool
    requires drivers { AreDrivers netlist.now drivers.now }
    requires reads { AreTimes (length netlist.now.names) (all_read netlist.now) reads.now }
    requires below { IsBelow (length netlist.now.names) signal }
    ensures { result ≡ is_last_carry netlist.now signal }
{
    match signal {
        Some(signal) => {
            reads[signal.0 as usize] == 1 && is_carry_out(netlist, drivers[signal.0 as usize])
        }
        None => false,
    }
}

// Whether a cell is a look-up table at which a chain of carries ends.
#[tactic(auto, using(ice_check::proofs::ListsBelow::at_below))]
fn ends_chain(netlist: &Netlist, drivers: &[SignalDriver], reads: &[usize], cell: &Cell) -> bool
    requires drivers { AreDrivers netlist.now drivers.now }
    requires reads { AreTimes (length netlist.now.names) (all_read netlist.now) reads.now }
    requires below { All (IsBelow (length netlist.now.names)) cell.now.ins }
    ensures { result ≡ ends_chain netlist.now cell.now }
{
    is_lut(cell.kind) && is_last_carry(netlist, drivers, reads, signal_at(cell.ins.as_slice(), 3))
}

// Adds a number behind the others, where that is so.
fn push_if(list: &mut Vec<usize>, is_so: bool, number: usize) -> Result<(), NoMemory>
    ensures { OnOk result (list.new.items ≡ list.old.items ++ (if is_so then number ∷ [] else [])) }
{
    if is_so {
        list.push(number)?;
    }
    Ok(())
}

// The look-up tables at which chains of carries end.
fn ends_by(
    alloc: Global,
    netlist: &Netlist,
    drivers: &[SignalDriver],
    reads: &[usize],
) -> Result<Vec<usize>, NoMemory>
    requires drivers { AreDrivers netlist.now drivers.now }
    requires reads { AreTimes (length netlist.now.names) (all_read netlist.now) reads.now }
    ensures { IfOk result (λ ends. ends.items ≡ chain_ends netlist.now) }
{
    let cells = netlist.cells();
    let mut ends = Vec::new(alloc);
    for (i, cell) in cells.iter().enumerate() {
        push_if(&mut ends, ends_chain(netlist, drivers, reads, cell), i)?;
    }
    Ok(ends)
}

// The same of a sound netlist.
fn chain_ends(alloc: Global, sound: &Sound) -> Result<Vec<usize>, NoMemory>
    ensures { IfOk result (λ ends. ends.items ≡ chain_ends sound.now) }
{
    let netlist = sound.netlist();
    netlist.is_formed();
    let reads = reads_of(alloc, netlist)?;
    let ends = ends_by(alloc, netlist, sound.drivers(), &reads)?;
    Ok(ends)
}

// Whether no carry shares the logic cell of a look-up table.
fn is_free_by(carriers: &[Option<usize>], table: usize) -> bool
    ensures { result ≡ is_free_by carriers.now table }
{
    !matches!(carriers.get(table), Some(Some(_)))
}

// Whether an input reads the constant 1.
fn is_one(found: &[Origin], input: Option<SignalNo>) -> bool
    ensures { result ≡ has_level found.now true input }
{
    let Some(signal) = input else {
        return false;
    };
    let s = signal.0 as usize;
    if s >= found.len() {
        return false;
    }
    match found[s] {
        Origin::Fixed(level) => level,
        _ => false,
    }
}

// Whether the carry at a table with these inputs would read the constant 1.
fn reads_one_by(found: &[Origin], ins: &[Option<SignalNo>]) -> bool
    ensures { result ≡ reads_one_by found.now ins.now }
{
    is_one(found, signal_at(ins, 1)) || is_one(found, signal_at(ins, 2))
}

// Whether a carry of its own can share the logic cell of a look-up table, and needs no cell of a constant.
fn can_share(carriers: &[Option<usize>], found: &[Origin], cells: &[Cell], table: usize) -> bool
    requires { table < length cells.now }
    ensures { result ≡ can_share carriers.now found.now cells.now table }
{
    is_free_by(carriers, table) && !reads_one_by(found, cells[table].ins.as_slice())
}

// Those of these tables of which that is so.
#[tactic(auto, using(crate::proofs::Owned::free_more, crate::proofs::Owned::free_all))]
fn free_by(
    alloc: Global,
    carriers: &[Option<usize>],
    found: &[Origin],
    cells: &[Cell],
    tables: &[usize],
) -> Result<Vec<usize>, NoMemory>
    requires { All (λ table. table < length cells.now) tables.now }
    ensures { IfOk result (λ free.
        free.items ≡ filter (can_share carriers.now found.now cells.now) tables.now) }
{
    let mut free = Vec::new(alloc);
    for table in tables {
        push_if(&mut free, can_share(carriers, found, cells, *table), *table)?;
    }
    Ok(free)
}

// The same, by the carries that share the look-up tables of a sound netlist.
fn free_of(
    alloc: Global,
    sound: &Sound,
    found: &[Origin],
    tables: &[usize],
) -> Result<Vec<usize>, NoMemory>
    requires found { found.now ≡ origins sound.now }
    requires below { All (λ table. table < length sound.now.cells) tables.now }
    ensures { IfOk result (λ free. free.items ≡ filter (is_free sound.now) tables.now) }
{
    let cells = sound.netlist().cells();
    let bare = bare_outputs(alloc, sound)?;
    let facts = facts_of(alloc, cells, found, &bare)?;
    let homes = homes_of(alloc, &facts)?;
    let free = free_by(alloc, homes.carriers.as_slice(), found, cells, tables)?;
    Ok(free)
}

// Whether the look-up table at a place of the list is this one.
fn is_own(luts: &[Option<usize>], place: usize, table: usize) -> bool
    ensures { result ≡ is_place table (slice_index_or luts.now place None) }
{
    match luts.get(place) {
        Some(Some(lut)) => *lut == table,
        _ => false,
    }
}

// Those tables that their own carries would share; the first of these has that place among the numbers of carries.
#[tactic(auto, using(crate::proofs::Owned::own_start, crate::proofs::Owned::own_end))]
fn own(
    alloc: Global,
    luts: &[Option<usize>],
    first: usize,
    tables: &[usize],
) -> Result<Vec<usize>, NoMemory>
    requires { first + length tables.now < 18446744073709551616 }
    ensures { IfOk result (λ found. found.items ≡ own luts.now first tables.now) }
{
    let mut found = Vec::new(alloc);
    for (place, table) in tables.iter().enumerate() {
        push_if(&mut found, is_own(luts, first + place, *table), *table)?;
    }
    Ok(found)
}

// Those of these tables that their own carries would share.
fn own_ends(
    alloc: Global,
    sound: &Sound,
    found: &[Origin],
    tables: &[usize],
) -> Result<Vec<usize>, NoMemory>
    requires found { found.now ≡ origins sound.now }
    requires below { All (λ table. table < length sound.now.cells) tables.now }
    ensures { IfOk result (λ kept. kept.items ≡ own_ends sound.now tables.now) }
{
    let cells = sound.netlist().cells();
    let luts = luts_behind(alloc, cells, found, tables)?;
    let kept = own(alloc, &luts, cells.len(), tables)?;
    Ok(kept)
}

// How many carries may be added.
fn most_tails(netlist: &Netlist) -> usize
    ensures { result ≡ most_tails netlist.now }
{
    let count = netlist.signals();
    count.min(MOST_SIGNALS.saturating_sub(count)) as usize
}

/// The look-up tables that get a carry.
///
/// # Errors
/// Want of memory alone.
pub(crate) fn tables_of(alloc: Global, sound: &Sound) -> Result<Vec<usize>, NoMemory>
    ensures { IfOk result (λ tables. tables.items ≡ tables_of sound.now) }
{
    let ends = chain_ends(alloc, sound)?;
    let origins = origins(alloc, sound)?;
    let free = free_of(alloc, sound, &origins, &ends)?;
    let mut tables = own_ends(alloc, sound, &origins, &free)?;
    tables.truncate(most_tails(sound.netlist()));
    Ok(tables)
}
