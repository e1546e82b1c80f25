//! Cells in the order of their ranks.
ghost use Rattle.std.specs.Prelude.{◌≡◌, OnOk};
ghost use Rattle.ice_cells.specs.Ranks.{by_rank, flop_rank, rank_in};

use ice_base::NoMemory;
use ice_cells::Control;

// The rank of a cell; 0 behind the end of the list.
fn rank_of(ranks: &[u32], c: u32) -> u32
    ensures { result ≡ rank_in ranks.now c }
{
    match ranks.get(c as usize) {
        Some(rank) => *rank,
        None => 0,
    }
}

// Sorts flip-flops by the ranks of their cells.
pub(crate) fn rank_flops(flops: &mut Vec<(u32, Control)>, ranks: &[u32]) -> Result<(), NoMemory>
    ensures { OnOk result (flops.new.items ≡ by_rank (flop_rank ranks.now) flops.old.items) }
{
    flops.sort_by_key(|flop| rank_of(ranks, flop.0))?;
    Ok(())
}

// Sorts cells by their ranks.
pub(crate) fn rank_plains(plains: &mut Vec<u32>, ranks: &[u32]) -> Result<(), NoMemory>
    ensures { OnOk result (plains.new.items ≡ by_rank (rank_in ranks.now) plains.old.items) }
{
    plains.sort_by_key(|c| rank_of(ranks, *c))?;
    Ok(())
}
