//! What is known of assigned pads and globals, as the contract of a function that does nothing.
ghost use Rattle.ice_pads.specs.Facts.{AssignedPadsFit};

/// The pads that are assigned on a chip are different ones of the package, one for each port, and have the wires that the
/// ports need; the globals are different ones below 8, one for each global buffer, and each is fed by a tile of its own.
pub fn assigned_pads_fit()
    ensures { AssignedPadsFit }
{}
