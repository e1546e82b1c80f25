//! Graphs: which points each point depends on.
ghost use Rattle.std.specs.Prelude.{◌≡◌, ◌==◌, ◌↔◌, ℕ, ◌<◌, ◌≤◌, [], ◌∷◌, ◌++◌, length, slice_index_or, IsTrue, OnOk, OnErr};
ghost use Rattle.ice_base_values.specs.Order.{At};
ghost use Rattle.ice_base_values.specs.Graph.{depends_of, IsWithin, rows_of, AreEnds};

use std::alloc::{AllocError, Global};
use std::marker::Model;

/// The points that each point depends on, points being numbered from 0 in the order in which they are pushed. Contracts see
/// the list of the rows, one for each point.
#[derive(Drop)]
pub struct Graph {
    // Where the dependences of each point end in the flat list.
    ends: Vec<usize>,
    // The dependences of all points, one point after another.
    flat: Vec<usize>,
}

impl Model for Graph {
    ghost use Rattle.std.specs.Prelude.{List, ℕ, length};
    ghost use Rattle.ice_base_values.specs.Graph.{rows_of, AreEnds};

    ghost Value = { List (List ℕ) };

    ghost view = { λ g. rows_of 0 g.ends.items g.flat.items };

    ghost invariant = { λ g. AreEnds 0 g.ends.items (length g.flat.items) };
}

impl Graph {
    /// A graph with no points.
    pub fn new(alloc: Global) -> Self
        ensures { result ≡ [] }
    {
        Graph {
            ends: Vec::new(alloc),
            flat: Vec::new(alloc),
        }
    }

    /// How many points there are.
    #[tactic(auto, using(crate::proofs::Rows::row_counts))]
    pub fn len(&self) -> usize
        ensures { result ≡ length self.now }
    {
        self.ends.len()
    }

    /// Whether there are no points.
    #[tactic(auto, using(crate::proofs::Rows::row_counts))]
    pub fn is_empty(&self) -> bool
        ensures { result ≡ (length self.now == 0) }
    {
        self.len() == 0
    }

    /// Adds a point, with the points that it depends on. They may be points that come later, or the point itself.
    ///
    /// # Errors
    /// Want of memory; the graph is as it was then.
    pub fn push(&mut self, depends: &[usize]) -> Result<(), AllocError>
        ensures ok { OnOk result (self.new ≡ self.old ++ depends.now ∷ []) }
        ensures err { OnErr result (self.new ≡ self.old) }
    {
        self.ends.reserve(1)?;
        self.flat.extend_from_slice(depends)?;
        self.ends.push(self.flat.len())?;
        Ok(())
    }

    /// Whether each point depends on points of the graph alone.
    pub fn is_within(&self) -> bool
        ensures { IsTrue result ↔ IsWithin self.now }
    {
        let points = self.len();
        for point in 0..points {
            if !are_below(self.depends(point), points) {
                return false;
            }
        }
        true
    }

    /// The points that a point depends on, as they were pushed.
    #[tactic(auto, using(crate::proofs::Rows::row_counts))]
    pub fn depends(&self, point: usize) -> &[usize]
        requires { point < length self.now }
        ensures { result.now ≡ depends_of self.now point }
    {
        row(&self.ends, &self.flat, point)
    }
}

// Whether all points of a row are below a number.
fn are_below(row: &[usize], points: usize) -> bool
    ensures { IsTrue result ↔ ((k point : ℕ) → At row.now k point → point < points) }
{
    for &point in row {
        if point >= points {
            return false;
        }
    }
    true
}

// The row of a point.
#[tactic(auto, using(crate::proofs::Rows::row_parts))]
fn row<'a>(ends: &[usize], flat: &'a [usize], point: usize) -> &'a [usize]
    requires ends { AreEnds 0 ends.now (length flat.now) }
    requires point { point < length ends.now }
    ensures { result.now ≡ depends_of (rows_of 0 ends.now flat.now) point }
{
    let start = start_of(ends, point);
    let end = ends[point];
    &flat[start..end]
}

// Where a point's row starts: where the row before it ends.
fn start_of(ends: &[usize], point: usize) -> usize
    requires { point ≤ length ends.now }
    ensures { result ≡ slice_index_or (0 ∷ ends.now) point 0 }
{
    if point == 0 { 0 } else { ends[point - 1] }
}
