//! Groups of cells are opened one after another; plain cells fill them as they come.
ghost use Rattle.std.specs.Prelude.{◌≡◌, ◌++◌, ◌∷◌, [], map, IfOk, OnOk};
ghost use Rattle.std.specs.List.{range_with_len};
ghost use Rattle.ice_cells.specs.Pieces.{pieces_count};
ghost use Rattle.ice_cells.specs.Clusters.{run_piece, set_piece, runs_pieces, plain_pieces, ends, group_of, group_pieces, groups_pieces};

use ice_base::{NoMemory, to_u32};
use ice_cells::{Control, Items, LogicCell, Run, TileCells, first_control, piece, pieces_count};
use indexmap::IndexSet;
use std::alloc::Global;

// Opens a group, and fills it with plain cells; gives those that are left.
#[tactic(auto, using(crate::proofs::Opening::opened_one))]
fn open<'a>(
    alloc: Global,
    groups: &mut Vec<TileCells>,
    members: &[u32],
    control: Option<Control>,
    run: Option<(u32, u32)>,
    plains: &'a [u32],
) -> Result<&'a [u32], NoMemory>
    ensures { IfOk result (λ rest. (groups.new.items, rest.now)
        ≡ ends (group_of members.now control run ∷ []) plains.now groups.old.items) }
{
    let mut cells = Vec::with_capacity(alloc, 8)?;
    cells.extend_from_slice(members)?;
    let room = 8usize.saturating_sub(members.len()).min(plains.len());
    let (now, later) = plains.split_at(room);
    cells.extend_from_slice(now)?;
    groups.push(TileCells {
        cells: Items::from_vec(cells),
        control,
        run,
    })?;
    Ok(later)
}

// Opens the pieces of a run.
fn open_run<'a>(
    alloc: Global,
    groups: &mut Vec<TileCells>,
    cells: &[LogicCell],
    r: u32,
    members: &[u32],
    plains: &'a [u32],
) -> Result<&'a [u32], NoMemory>
    ensures { IfOk result (λ rest. (groups.new.items, rest.now) ≡ ends
        (map (run_piece cells.now r members.now) (range_with_len 0 (pieces_count members.now)))
        plains.now groups.old.items) }
{
    let mut rest = plains;
    for k in 0..pieces_count(members) {
        let part = piece(members, k);
        let chunk = (r, to_u32(k)?);
        rest = open(
            alloc,
            groups,
            part,
            first_control(cells, part),
            Some(chunk),
            rest,
        )?;
    }
    Ok(rest)
}

// Opens the pieces of all runs.
pub(crate) fn open_runs<'a>(
    alloc: Global,
    groups: &mut Vec<TileCells>,
    cells: &[LogicCell],
    runs: &[Run],
    plains: &'a [u32],
) -> Result<&'a [u32], NoMemory>
    ensures { IfOk result (λ rest. (groups.new.items, rest.now)
        ≡ ends (runs_pieces cells.now 0 runs.now) plains.now groups.old.items) }
{
    let mut rest = plains;
    for (r, run) in runs.iter().enumerate() {
        rest = open_run(alloc, groups, cells, to_u32(r)?, run.cells.as_slice(), rest)?;
    }
    Ok(rest)
}

// Opens the pieces of a control set's cells.
fn open_set<'a>(
    alloc: Global,
    groups: &mut Vec<TileCells>,
    control: Control,
    members: &[u32],
    plains: &'a [u32],
) -> Result<&'a [u32], NoMemory>
    ensures { IfOk result (λ rest. (groups.new.items, rest.now)
        ≡ ends (map (set_piece control members.now) (range_with_len 0 (pieces_count members.now)))
        plains.now groups.old.items) }
{
    let mut rest = plains;
    for k in 0..pieces_count(members) {
        rest = open(alloc, groups, piece(members, k), Some(control), None, rest)?;
    }
    Ok(rest)
}

// Opens the pieces of the cells of control set k.
fn open_list<'a>(
    alloc: Global,
    groups: &mut Vec<TileCells>,
    sets: &IndexSet<Control>,
    k: usize,
    members: &[u32],
    plains: &'a [u32],
) -> Result<&'a [u32], NoMemory>
    ensures { IfOk result (λ rest. (groups.new.items, rest.now)
        ≡ ends (group_pieces sets.now.keys k members.now) plains.now groups.old.items) }
{
    let Some(control) = sets.get_index(k) else {
        return Ok(plains);
    };
    open_set(alloc, groups, *control, members, plains)
}

// Opens the pieces of the cells of all control sets.
pub(crate) fn open_lists<'a>(
    alloc: Global,
    groups: &mut Vec<TileCells>,
    sets: &IndexSet<Control>,
    lists: &[Items<u32>],
    plains: &'a [u32],
) -> Result<&'a [u32], NoMemory>
    ensures { IfOk result (λ rest. (groups.new.items, rest.now)
        ≡ ends (groups_pieces sets.now.keys 0 lists.now) plains.now groups.old.items) }
{
    let mut rest = plains;
    for (k, list) in lists.iter().enumerate() {
        rest = open_list(alloc, groups, sets, k, list.as_slice(), rest)?;
    }
    Ok(rest)
}

// Opens groups of plain cells alone.
pub(crate) fn open_plains(
    alloc: Global,
    groups: &mut Vec<TileCells>,
    plains: &[u32],
) -> Result<(), NoMemory>
    ensures { OnOk result (groups.new.items ≡ groups.old.items ++ plain_pieces plains.now) }
{
    for k in 0..pieces_count(plains) {
        open(alloc, groups, piece(plains, k), None, None, &[])?;
    }
    Ok(())
}
