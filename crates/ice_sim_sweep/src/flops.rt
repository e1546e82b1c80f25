//! Flip-flops, by levels.
ghost use Rattle.std.specs.Prelude.{◌≡◌};
ghost use Rattle.ice_net.specs.Kinds.{is_edge, taken, forced, fired};

use ice_net::Reset;

/// Whether the clock's level of the step before and its level now make the active edge.
pub(crate) fn is_edge(falling: bool, before: Option<bool>, now: bool) -> bool
    ensures { result ≡ is_edge falling before now }
{
    match before {
        None => false,
        Some(before) => {
            if falling {
                before && !now
            } else {
                !before && now
            }
        }
    }
}

// What a flip-flop takes at an edge with its enable at 1.
fn taken(reset: Reset, set: bool, datum: bool) -> bool
    ensures { result ≡ taken reset set datum }
{
    match reset {
        Reset::SyncReset => !set && datum,
        Reset::SyncSet => set || datum,
        Reset::Nothing | Reset::AsyncReset | Reset::AsyncSet => datum,
    }
}

// What a flip-flop keeps, after its asynchronous set or reset.
fn forced(reset: Reset, set: bool, kept: bool) -> bool
    ensures { result ≡ forced reset set kept }
{
    match reset {
        Reset::AsyncReset => !set && kept,
        Reset::AsyncSet => set || kept,
        Reset::Nothing | Reset::SyncReset | Reset::SyncSet => kept,
    }
}

/// What a flip-flop keeps after a step.
pub(crate) fn fired(
    reset: Reset,
    edge: bool,
    enable: bool,
    set: bool,
    datum: bool,
    kept: bool,
) -> bool
    ensures { result ≡ fired reset edge enable set datum kept }
{
    let next = if edge && enable {
        taken(reset, set, datum)
    } else {
        kept
    };
    forced(reset, set, next)
}
