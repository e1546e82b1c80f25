//! The law of raised histories, as the contract of a function that does nothing.
ghost use Rattle.ice_worker_raise.specs.Closing.{RaisingLaw};

/// Where all hands are joined and each did nothing or raised its blocks until None, each history is the old one and the overuse of its wire.
pub fn histories_are_raised_by_overuse()
    ensures { RaisingLaw }
{}
