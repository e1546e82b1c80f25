//! What global buffers read.
ghost use Rattle.std.specs.Prelude.{◌≡◌, false, slice_index_or};
ghost use Rattle.ice_place_defs.specs.Loads.{fed_root};

use ice_cells::Root;

// Whether the global buffer of this number is direct.
fn is_direct(direct: &[bool], number: usize) -> bool
    ensures { result ≡ slice_index_or direct.now number false }
{
    direct.get(number).copied().unwrap_or(false)
}

/// What the global buffer of this number reads in the tile that feeds its global: the root that it reads, or nothing where it is
/// direct.
pub fn fed_root(direct: &[bool], number: usize, root: Option<Root>) -> Option<Root>
    ensures { result ≡ fed_root (slice_index_or direct.now number false) root }
{
    if is_direct(direct, number) {
        None
    } else {
        root
    }
}
