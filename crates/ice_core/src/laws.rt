//! Laws of the core, each as the contract of a function that does nothing.
ghost use Rattle.ice_core.specs.Moments.{CoreCounts};

/// Over every list of allowed events of up to eight workers the count of each wire is the number of routes that hold it at that
/// moment, and the overuse that came and went is accounted for, posted or not. When all workers have ended, the routes are the new ones
/// beside those of the nets that didn't move, and the counts are what they hold.
pub fn the_core_counts()
    ensures { CoreCounts }
{}
