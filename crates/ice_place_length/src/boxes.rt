//! Boxes of tiles.
ghost use Rattle.std.specs.Prelude.{◌≡◌, ◌≤◌};
ghost use Rattle.ice_cells.specs.Same.{same_root};
ghost use Rattle.ice_place_defs.specs.Loads.{Pin, load_at};
ghost use Rattle.ice_place_defs.specs.Length.{box_at, with_tile, half_perimeter};
ghost use Rattle.ice_place_length.specs.Grown.{box_in, grown};

use ice_base::TileAt;
use ice_cells::Root;

/// The columns and the rows of a box, from the least to the greatest.
#[derive(Clone, Copy)]
pub struct Span {
    pub left: u16,
    pub right: u16,
    pub low: u16,
    pub high: u16,
}

/// One tile.
pub fn span_at(tile: TileAt) -> Span
    ensures { box_in result ≡ box_at tile }
{
    Span {
        left: tile.x,
        right: tile.x,
        low: tile.y,
        high: tile.y,
    }
}

/// The least box that has the tile, too.
pub fn with_tile(span: Span, tile: TileAt) -> Span
    ensures { box_in result ≡ with_tile (box_in span) tile }
{
    Span {
        left: span.left.min(tile.x),
        right: span.right.max(tile.x),
        low: span.low.min(tile.y),
        high: span.high.max(tile.y),
    }
}

/// How many columns and rows there are beyond the first.
pub fn half_perimeter(span: Span) -> u64
    ensures value { result ≡ half_perimeter (box_in span) }
    ensures bound { result ≤ 131070 }
{
    u64::from(span.right.saturating_sub(span.left)) + u64::from(span.high.saturating_sub(span.low))
}

// Whether the two are one root.
fn same_root(root: Root, other: Root) -> bool
    ensures { result ≡ same_root root other }
{
    match (root, other) {
        (Root::PadIn(j), Root::PadIn(k)) => j == k,
        (Root::CellOut(j), Root::CellOut(k)) => j == k,
        (Root::GlobalOut(j), Root::GlobalOut(k)) => j == k,
        (Root::CarryOut(j), Root::CarryOut(k)) => j == k,
        _ => false,
    }
}

/// The box with the tile of a pin, where the pin reads the root.
#[tactic(auto, using(crate::proofs::Growing::grown_none, crate::proofs::Growing::grown_here, crate::proofs::Growing::grown_other))]
pub fn grown_at(span: Span, root: Root, tile: TileAt, reads: Option<Root>) -> Span
    ensures { (pin : Pin) → box_in result ≡ grown root (box_in span) (load_at tile pin reads) }
{
    match reads {
        None => span,
        Some(read) => {
            if same_root(read, root) {
                with_tile(span, tile)
            } else {
                span
            }
        }
    }
}
