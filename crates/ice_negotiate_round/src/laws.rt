//! The law of the moments of a round, as the contract of a function that does nothing.
ghost use Rattle.ice_negotiate_round.specs.Moments.{PlayShowsCore, TreesAreNewRoutes};

/// Between any two steps on the words of a round, where workers alone use the hands and at most eight of these have drawn a number, the words show a state that the
/// core reaches, with the trees of the round as the new routes of its tasks. Each part is that of a moment of a worker's steps, which end as `work` says.
pub fn play_shows_a_core()
    ensures shown { PlayShowsCore }
    ensures trees { TreesAreNewRoutes }
{}
