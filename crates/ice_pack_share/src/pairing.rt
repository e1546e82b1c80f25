//! Carries take look-up tables with the same two inputs, one after another.
ghost use Rattle.std.specs.Prelude.{◌≡◌, ◌+◌, ◌++◌, ◌<◌, ◌&&◌, ◌==◌, ℕ, [], All, length, map, IfOk, OnOk, Some, if◌then◌else◌};
ghost use Rattle.ice_cells.specs.declared.share.Pair.{Pair};
ghost use Rattle.ice_cells.specs.Pairs.{pair_of, role_of, roles_of, gives, takes, luts_of};
ghost use Rattle.ice_cells.specs.Same.{same_pair};
ghost use Rattle.ice_pack_share.specs.declared.pairing.Turn.{Turn};
ghost use Rattle.ice_pack_share.specs.Behind.{role_at, roles_behind};
ghost use Rattle.ice_pack_share.specs.Turns.{same_turn, turn_of, count_in, one_if, lut_at, lut_taken, AreSmall, AreByTurn};

use ice_base::{NoMemory, SignalNo};
use ice_cells::{Origin, Pair, Role, input_origin, is_dropped, is_table_kind};
use ice_net::{Cell, CellKind, signal_at};
use indexmap::IndexMap;
use std::alloc::Global;

/// The turn of a look-up table among those of its pair.
#[derive(Clone, Copy, PartialEq, Eq, Hash)]
pub(crate) struct Turn {
    /// The pair.
    pub(crate) pair: Pair,
    /// How many of the pair come before it.
    pub(crate) turn: usize,
}

// What two inputs read.
fn pair_of(origins: &[Origin], ins: &[Option<SignalNo>], first: usize, second: usize) -> Pair
    ensures { result ≡ pair_of origins.now ins.now first second }
{
    Pair {
        first: input_origin(origins, signal_at(ins, first)),
        second: input_origin(origins, signal_at(ins, second)),
    }
}

// What a cell is where carries and look-up tables are brought together.
fn role_of(origins: &[Origin], cell: &Cell) -> Role
    ensures { result ≡ role_of origins.now cell.now }
{
    let ins = cell.ins.as_slice();
    if is_table_kind(cell.kind) {
        return Role::Gives(pair_of(origins, ins, 1, 2));
    }
    match cell.kind {
        CellKind::Carry => if is_dropped(cell.outs.as_slice()) {
            Role::Neither
        } else {
            Role::Takes(pair_of(origins, ins, 0, 1))
        },
        _ => Role::Neither,
    }
}

// What each cell is where carries and look-up tables are brought together.
fn roles_of(alloc: Global, cells: &[Cell], origins: &[Origin]) -> Result<Vec<Role>, NoMemory>
    ensures { IfOk result (λ roles. roles.items ≡ roles_of origins.now cells.now) }
{
    let mut roles = Vec::new(alloc);
    for cell in cells {
        roles.push(role_of(origins, cell))?;
    }
    Ok(roles)
}

// How many have been counted of a pair.
fn count_of(counts: &IndexMap<Pair, usize>, pair: Pair) -> usize
    ensures { result ≡ count_in counts.now.entries pair }
{
    counts.get(&pair).copied().unwrap_or(0)
}

// Counts one more of a pair; gives how many there were before.
fn add_one(counts: &mut IndexMap<Pair, usize>, pair: Pair) -> Result<usize, NoMemory>
    requires { AreSmall counts.old.entries }
    ensures before { IfOk result (λ count. count ≡ count_in counts.old.entries pair) }
    ensures after { OnOk result ((p : Pair) → count_in counts.new.entries p
        ≡ count_in counts.old.entries p + one_if (same_pair pair p)) }
{
    let count = count_of(counts, pair);
    counts.insert(pair, count + 1)?;
    Ok(count)
}

// Notes a look-up table by its turn.
fn put_lut(luts: &mut IndexMap<Turn, usize>, turn: Turn, j: usize) -> Result<(), NoMemory>
    ensures { OnOk result ((t : Turn) → lut_at luts.new.entries t
        ≡ (if same_turn turn t then Some j else lut_at luts.old.entries t)) }
{
    luts.insert(turn, j)?;
    Ok(())
}

// The look-up table of a turn.
fn lut_at(luts: &IndexMap<Turn, usize>, turn: Turn) -> Option<usize>
    ensures { result ≡ lut_at luts.now.entries turn }
{
    luts.get(&turn).copied()
}

// Notes a cell, where it is a look-up table, by its turn.
fn note_lut(
    luts: &mut IndexMap<Turn, usize>,
    counts: &mut IndexMap<Pair, usize>,
    j: usize,
    role: Role,
) -> Result<(), NoMemory>
    requires { AreSmall counts.old.entries }
    ensures luts { OnOk result ((p : Pair) (k : ℕ) → lut_at luts.new.entries (turn_of p k)
        ≡ (if gives p role && (count_in counts.old.entries p == k) then Some j
        else lut_at luts.old.entries (turn_of p k))) }
    ensures counts { OnOk result ((p : Pair) → count_in counts.new.entries p
        ≡ count_in counts.old.entries p + one_if (gives p role)) }
{
    if let Role::Gives(pair) = role {
        let turn = add_one(counts, pair)?;
        put_lut(luts, Turn { pair, turn }, j)?;
    }
    Ok(())
}

// The look-up tables by their turns.
fn luts_by_turn(alloc: Global, roles: &[Role]) -> Result<IndexMap<Turn, usize>, NoMemory>
    ensures { IfOk result (λ luts. AreByTurn roles.now (length roles.now) luts.entries) }
{
    let mut counts = IndexMap::new(alloc);
    let mut luts = IndexMap::new(alloc);
    for (j, role) in roles.iter().enumerate() {
        note_lut(&mut luts, &mut counts, j, *role)?;
    }
    Ok(luts)
}

// The look-up table that a cell takes, where it is a carry.
fn take_lut(
    luts: &IndexMap<Turn, usize>,
    counts: &mut IndexMap<Pair, usize>,
    role: Role,
) -> Result<Option<usize>, NoMemory>
    requires { AreSmall counts.old.entries }
    ensures lut { IfOk result (λ lut. lut ≡ lut_taken luts.now.entries counts.old.entries role) }
    ensures counts { OnOk result ((p : Pair) → count_in counts.new.entries p
        ≡ count_in counts.old.entries p + one_if (takes p role)) }
{
    let Role::Takes(pair) = role else {
        return Ok(None);
    };
    let turn = add_one(counts, pair)?;
    Ok(lut_at(luts, Turn { pair, turn }))
}

// Puts down the look-up table that each cell takes, by those of all turns.
fn take_luts(
    by_turn: &IndexMap<Turn, usize>,
    counts: &mut IndexMap<Pair, usize>,
    luts: &mut Vec<Option<usize>>,
    roles: &[Role],
) -> Result<(), NoMemory>
    requires by_turn { AreByTurn roles.now (length roles.now) by_turn.now.entries }
    requires counts { counts.old.entries ≡ [] }
    requires luts { luts.old.items ≡ [] }
    ensures { OnOk result (luts.new.items ≡ luts_of roles.now) }
{
    for (c, role) in roles.iter().enumerate() {
        let lut = take_lut(by_turn, counts, *role)?;
        luts.push(lut)?;
    }
    Ok(())
}

// The look-up table whose logic cell each carry shares, by what each cell is.
fn pair_carries(alloc: Global, roles: &[Role]) -> Result<Vec<Option<usize>>, NoMemory>
    ensures { IfOk result (λ luts. luts.items ≡ luts_of roles.now) }
{
    let by_turn = luts_by_turn(alloc, roles)?;
    let mut counts = IndexMap::new(alloc);
    let mut luts = Vec::new(alloc);
    let done = take_luts(&by_turn, &mut counts, &mut luts, roles);
    done.and(Ok(luts))
}

// What a carry would be that stands at a look-up table and reads what the table reads.
fn role_at(origins: &[Origin], cells: &[Cell], table: usize) -> Role
    requires { table < length cells.now }
    ensures { result ≡ role_at origins.now cells.now table }
{
    Role::Takes(pair_of(origins, cells[table].ins.as_slice(), 1, 2))
}

// Adds what carries would be that stand at look-up tables.
fn push_roles(
    roles: &mut Vec<Role>,
    origins: &[Origin],
    cells: &[Cell],
    tables: &[usize],
) -> Result<(), NoMemory>
    requires { All (λ table. table < length cells.now) tables.now }
    ensures { OnOk result
        (roles.new.items ≡ roles.old.items ++ map (role_at origins.now cells.now) tables.now) }
{
    for table in tables {
        roles.push(role_at(origins, cells, *table))?;
    }
    Ok(())
}

/// The look-up table whose logic cell each carry would share, by the number of the carry, where behind all cells stood one carry more for
/// each of these look-up tables, with the table's second and third input as its own two.
///
/// # Errors
/// Want of memory alone.
pub fn luts_behind(
    alloc: Global,
    cells: &[Cell],
    origins: &[Origin],
    tables: &[usize],
) -> Result<Vec<Option<usize>>, NoMemory>
    requires { All (λ table. table < length cells.now) tables.now }
    ensures { IfOk result (λ luts.
        luts.items ≡ luts_of (roles_behind origins.now cells.now tables.now)) }
{
    let mut roles = roles_of(alloc, cells, origins)?;
    push_roles(&mut roles, origins, cells, tables)?;
    let luts = pair_carries(alloc, &roles)?;
    Ok(luts)
}

/// The look-up table whose logic cell each carry shares, by the number of the carry.
///
/// # Errors
/// Want of memory alone.
pub(crate) fn find_luts(
    alloc: Global,
    cells: &[Cell],
    origins: &[Origin],
) -> Result<Vec<Option<usize>>, NoMemory>
    ensures { IfOk result (λ luts. luts.items ≡ luts_of (roles_of origins.now cells.now)) }
{
    let roles = roles_of(alloc, cells, origins)?;
    let luts = pair_carries(alloc, &roles)?;
    Ok(luts)
}
