//! Lists of the rows that are wanted.
ghost use Rattle.std.specs.Prelude.{◌≡◌, ◌++◌, flat_map, OnOk};
ghost use Rattle.std.specs.Option.{option_and_then};
ghost use Rattle.ice_chip.specs.Database.{Parts};
ghost use Rattle.ice_emit_defs.specs.Links.{tree_switch, listed};
ghost use Rattle.ice_emit.specs.Views.{rows_in};
ghost use Rattle.ice_emit_settings.specs.Views.{switches};

use ice_base::{NoMemory, RowNo};
use ice_graph::Tree;

/// Adds a row, if there is one.
#[tactic(auto, using(crate::proofs::Listed::one_more, crate::proofs::Listed::no_more))]
pub fn push_row(rows: &mut Vec<RowNo>, row: Option<RowNo>) -> Result<(), NoMemory>
    ensures { (parts : Parts)
        → OnOk result (switches parts rows.new.items
        ≡ switches parts rows.old.items ++ listed (option_and_then (tree_switch parts) row)) }
{
    if let Some(row) = row {
        rows.push(row)?;
    }
    Ok(())
}

// Adds the rows of a tree.
fn push_tree(rows: &mut Vec<RowNo>, tree: &[RowNo]) -> Result<(), NoMemory>
    ensures { OnOk result (rows.new.items ≡ rows.old.items ++ tree.now) }
{
    for row in tree {
        rows.push(*row)?;
    }
    Ok(())
}

/// Adds the rows of trees.
pub fn push_trees(rows: &mut Vec<RowNo>, trees: &[Tree]) -> Result<(), NoMemory>
    ensures { OnOk result (rows.new.items ≡ rows.old.items ++ flat_map rows_in trees.now) }
{
    for tree in trees {
        push_tree(rows, tree.rows.as_slice())?;
    }
    Ok(())
}
