//! Want of memory.
ghost use Rattle.std.specs.Prelude.{◌≡◌, Ok, IfOk};

use std::alloc::{AllocError, AllocFailed};
use thiserror::Error;

/// Want of memory, the one answer that any call which allocates may give.
#[derive(Clone, Copy, Debug, PartialEq, Eq, Error)]
#[error("want of memory")]
pub struct NoMemory;

impl From<AllocError> for NoMemory {
    fn from(_: AllocError) -> NoMemory {
        NoMemory
    }
}

impl<T: Drop> From<AllocFailed<T>> for NoMemory {
    fn from(_: AllocFailed<T>) -> NoMemory {
        NoMemory
    }
}

/// Both values, where both could be made. One that is there without the other is let go.
pub fn both<A: Drop, B: Drop>(
    one: Result<A, NoMemory>,
    other: Result<B, NoMemory>,
) -> Result<(A, B), NoMemory>
    ensures { IfOk result (λ made. (one ≡ Ok made.0) × (other ≡ Ok made.1)) }
{
    match (one, other) {
        (Ok(one), Ok(other)) => Ok((one, other)),
        _ => Err(NoMemory),
    }
}

/// A number of 32 bits. Where it is larger, memory would not hold what it counts.
pub fn to_u32(number: usize) -> Result<u32, NoMemory>
    ensures { IfOk result (λ n. n ≡ number) }
{
    match u32::try_from(number) {
        Ok(number) => Ok(number),
        Err(_) => Err(NoMemory),
    }
}
