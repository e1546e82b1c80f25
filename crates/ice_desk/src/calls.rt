//! The kinds of calls of a desk, and lists of calls that are to fail.
ghost use Rattle.std.specs.Prelude.{◌↔◌, IsTrue, Contains};

/// The kinds of calls of a desk.
#[derive(Clone, Copy, PartialEq, Eq)]
pub enum DeskCall {
    Begin,
    Read,
    Make,
    Put,
    Say,
}

/// Whether the call of this kind and number is in the list.
pub fn is_named(fails: &[(DeskCall, u64)], call: DeskCall, number: u64) -> bool
    ensures { IsTrue result ↔ Contains fails.now (call, number) }
{
    fails.contains(&(call, number))
}
