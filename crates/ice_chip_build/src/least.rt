//! The least line.
ghost use Rattle.std.specs.Prelude.{◌≡◌};
ghost use Rattle.ice_chip.specs.LeastLine.{least_of};

/// The lesser of a line that is known, if there is one, and another.
pub fn least_of(known: Option<u32>, line: u32) -> u32
    ensures { result ≡ least_of known line }
{
    match known {
        None => line,
        Some(known) => { if line < known { line } else { known } }
    }
}
