//! Laws of what workers do, each as the contract of a function that does nothing.
ghost use Rattle.ice_worker.specs.Lawfulness.{WorkIsLawful, WorkShowsCore};

/// Where the trees that a worker made are the new ones of their tasks, its part is lawful, after all its tasks as well as after a stop.
pub fn work_is_lawful()
    ensures { WorkIsLawful }
{}

/// Between any two steps on the words, where workers alone use the hands and at most eight of these have drawn a number, the words show a state that the core
/// reaches: each part is that of a moment of a worker's steps, which end as `work` says, whether all its tasks are done or it stopped.
pub fn work_shows_a_core()
    ensures { WorkShowsCore }
{}
