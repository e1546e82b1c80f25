//! The kinds of covers.
ghost use Rattle.std.specs.Prelude.{◌≡◌};
ghost use Rattle.ice_cells.specs.Origins.{is_alias, constant_of};

use ice_net::CellKind;

/// Whether a cell is another name of its one input.
pub(crate) fn is_alias(kind: CellKind) -> bool
    ensures { result ≡ is_alias kind }
{
    match kind {
        CellKind::Cover { table, width } => width == 1 && table == 2,
        _ => false,
    }
}

/// The level of a cover without inputs.
pub(crate) fn constant_of(kind: CellKind) -> Option<bool>
    ensures { result ≡ constant_of kind }
{
    match kind {
        CellKind::Cover { table, width: 0 } => Some(table % 2 == 1),
        _ => None,
    }
}
