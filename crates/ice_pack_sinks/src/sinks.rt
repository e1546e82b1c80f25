//! What sinks read.
ghost use Rattle.std.specs.Prelude.{◌≡◌, None, slice_index_or};
ghost use Rattle.ice_cells.specs.Packed.{origin_root, constant_root, sink_root, sink, enable_sink, plain_sink};
ghost use Rattle.ice_pack_sinks.specs.Plans.{plan};

use crate::Slices;
use ice_base::SignalNo;
use ice_cells::{Origin, Root, input_origin};

// The root of the output of the cell of a number.
pub(crate) fn root_at(roots: &[Option<Root>], j: usize) -> Option<Root>
    ensures { result ≡ slice_index_or roots.now j None }
{
    if j < roots.len() { roots[j] } else { None }
}

// The root of an origin; a constant has none.
fn origin_root(roots: &[Option<Root>], origin: Origin) -> Option<Root>
    ensures { result ≡ origin_root roots.now origin }
{
    match origin {
        Origin::Fixed(_) => None,
        Origin::Pad(k) => Some(Root::PadIn(k)),
        Origin::Made(j) => root_at(roots, j),
    }
}

// What a sink of a constant reads, where it reads `bare` if nothing drives it, and the cell has the other level.
fn constant_root(bare: bool, cell: u32, level: bool) -> Option<Root>
    ensures { result ≡ constant_root bare cell level }
{
    if bare == level {
        None
    } else {
        Some(Root::CellOut(cell))
    }
}

// What a sink reads, by the origin of its signal.
fn sink_root(bare: bool, cell: u32, roots: &[Option<Root>], origin: Origin) -> Option<Root>
    ensures { result ≡ sink_root bare cell roots.now origin }
{
    match origin {
        Origin::Fixed(level) => constant_root(bare, cell, level),
        Origin::Pad(k) => Some(Root::PadIn(k)),
        Origin::Made(j) => root_at(roots, j),
    }
}

/// What a sink reads that has level 0 where nothing drives it.
pub fn sink(slices: &Slices<'_>, input: Option<SignalNo>) -> Option<Root>
    ensures { result ≡ sink (plan slices.now) input }
{
    sink_root(
        false,
        slices.one,
        slices.roots,
        input_origin(slices.origins, input),
    )
}

// What an enable reads, which has level 1 where nothing drives it.
pub(crate) fn enable_sink(slices: &Slices<'_>, input: Option<SignalNo>) -> Option<Root>
    ensures { result ≡ enable_sink (plan slices.now) input }
{
    if input.is_none() {
        return None;
    }
    sink_root(
        true,
        slices.zero,
        slices.roots,
        input_origin(slices.origins, input),
    )
}

// What an input of a table, a clock or a flip-flop's data reads, which needs no cell of a constant.
pub(crate) fn plain_sink(slices: &Slices<'_>, input: Option<SignalNo>) -> Option<Root>
    ensures { result ≡ plain_sink (plan slices.now) input }
{
    origin_root(slices.roots, input_origin(slices.origins, input))
}
