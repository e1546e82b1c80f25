//! The end that a signal reaches last.
ghost use Rattle.std.specs.Prelude.{◌≡◌, ◌⊎◌, ◌≤◌, ◌^◌, ◌*◌, ℕ, List, [], All, IfNone, IfSome};
ghost use Rattle.ice_base_values.specs.Order.{Has};
ghost use Rattle.ice_chip.specs.Database.{Parts};
ghost use Rattle.ice_bits.specs.Configuration.{Bits};
ghost use Rattle.ice_timing.specs.Arriving.{AreArrivalsOf};
ghost use Rattle.ice_timing.specs.Entries.{door_delay};
ghost use Rattle.ice_timing.specs.Timed.{IsMoment, IsLatestEntry};

use crate::{Arrivals, Door, Entry};
use ice_timing_delays::Delays;

/// An entry of an end, and when a signal is in the end by it.
#[derive(Clone, Copy)]
pub(crate) struct Moment {
    pub(crate) entry: Entry,
    pub(crate) at: u64,
}

// What an end adds to a path that comes in by a door.
fn door_delay(delays: &Delays, door: Door) -> u64
    ensures value { result ≡ door_delay delays.now door }
    ensures small { result ≤ 2 * 2 ^ 32 }
{
    match door {
        Door::Table => u64::from(delays.lut) + u64::from(delays.setup),
        Door::Control => u64::from(delays.setup),
        Door::Outside => u64::from(delays.pad_out),
        Door::Register => u64::from(delays.setup),
        Door::Port => u64::from(delays.setup),
    }
}

// When a signal is in an end by one of its entries.
fn moment_of(arrivals: &Arrivals, delays: &Delays, entry: Entry) -> Moment
    requires { Has arrivals.now.points entry.last }
    ensures entry { result.entry ≡ entry }
    ensures moment { (parts : Parts) (bits : Bits) (extras : List (ℕ × ℕ × ℕ))
        → AreArrivalsOf parts bits extras delays.now arrivals.now
        → IsMoment parts bits extras delays.now entry result.at }
{
    Moment {
        entry,
        at: arrivals.of(entry.last) + door_delay(delays, entry.door),
    }
}

// The later of two moments; of two that are equal, the first.
fn later(one: Moment, other: Moment) -> Moment
    ensures either { (result ≡ one) ⊎ (result ≡ other) }
    ensures one { one.at ≤ result.at }
    ensures other { other.at ≤ result.at }
{
    if other.at > one.at { other } else { one }
}

/// The latest of some entries, if there are any: the first of those that are.
pub(crate) fn latest_entry(
    arrivals: &Arrivals,
    delays: &Delays,
    entries: &[Entry],
) -> Option<Moment>
    requires { All (λ e. Has arrivals.now.points e.last) entries.now }
    ensures none { IfNone result (entries.now ≡ []) }
    ensures some { IfSome result (λ m. (parts : Parts) (bits : Bits) (extras : List (ℕ × ℕ × ℕ))
        → AreArrivalsOf parts bits extras delays.now arrivals.now
        → IsLatestEntry parts bits extras delays.now entries.now m) }
{
    if entries.is_empty() {
        return None;
    }
    let mut latest = moment_of(arrivals, delays, entries[0]);
    for entry in entries {
        latest = later(latest, moment_of(arrivals, delays, *entry));
    }
    Some(latest)
}
