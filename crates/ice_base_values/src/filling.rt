//! The evaluator: the values of all points, found in an order.
ghost use Rattle.std.specs.Prelude.{◌≡◌, ℕ, ◌+◌, ◌<◌, Bool, false, List, map, length, slice_index_or, Some};
ghost use Rattle.ice_base_values.specs.System.{System, value};
ghost use Rattle.ice_base_values.specs.Order.{IsOrder};

/// Numbered points that depend on one another, at one moment: what its flip-flops keep and the levels at its inputs are part
/// of the system.
pub trait Points {
    /// How many points there are.
    ghost points: { Self → ℕ };

    /// What each point depends on, and the value that it makes of the values of those.
    ghost system: { Self → System ℕ Bool };

    /// What holds of the points whenever they are evaluated.
    ghost is_ready: { Self → Type 0 };

    /// The value that a point makes of the values at the points that it depends on.
    fn local(&self, point: usize, values: &[bool]) -> bool
        requires ready { is_ready self.now }
        requires point { point < points self.now }
        requires values { length values.now ≡ points self.now }
        ensures { result ≡ (system self.now).local point
            (map (λ q. slice_index_or values.now q false) ((system self.now).depends point)) };
}

/// Fills an array with the values of all points, each found once. What the array had before doesn't matter. It takes no memory.
pub fn evaluate<P: Points>(points: &P, order: &[usize], values: &mut [bool])
    requires ready { P.is_ready points.now }
    requires order { IsOrder (P.points points.now) (P.system points.now).depends order.now }
    requires values { length values.old ≡ P.points points.now }
    ensures { (p : ℕ) → p < P.points points.now
        → value (P.system points.now) (P.points points.now + 1) p
        ≡ Some (slice_index_or values.new p false) }
{
    for &point in order {
        let value = points.local(point, values);
        values[point] = value;
    }
}
