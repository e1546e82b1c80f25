//! Laws of the events of a round, as the contracts of functions that do nothing.
ghost use Rattle.ice_negotiate_round_laws.specs.Events.{ClaimsAreClaims, HoldsAreHolds, ReleasesAreReleases};
ghost use Rattle.ice_negotiate_round_laws.specs.Rounds.{EventsMakeRounds};

/// Each step of a hand on the words is the event of its name in the core, by the worker that is the hand's own part: the core may do the event where the
/// words stood before the step, and comes to where they stand behind it. Postings are left aside. Of a claim and a hold this is so where the part is
/// lawful behind the step: the hand holds the wires of its tasks' new routes, in order.
pub fn steps_are_events()
    ensures claims { ClaimsAreClaims }
    ensures releases { ReleasesAreReleases }
    ensures holds { HoldsAreHolds }
{}

/// When all workers of the core have ended with the tasks of nets that move, whatever events led there, the routes are the new trees of these nets beside
/// the others' old ones, and the counts are how many of these trees hold each wire. Where each new tree is the one in the prices of the
/// round, this is the round.
pub fn the_core_plays_rounds()
    ensures { EventsMakeRounds }
{}
