//! The laws of runs, each as the contract of a function that does nothing.
ghost use Rattle.ice_carry_laws.specs.RunLaws.{RunsAreFormed, RunsAreTied, RunsHaveValues, RunsShowTheSame};

/// Each carry comes to what read it, directly or through a cell that passes it on, and each flip-flop is read where it went.
pub fn runs_are_tied()
    ensures { RunsAreTied }
{}

/// With its runs a design shows, step by step, what it shows without.
pub fn runs_show_the_same()
    ensures { RunsShowTheSame }
{}

/// With its runs a design has no loop, as it had none without: each node has a value.
pub fn runs_have_values()
    ensures { RunsHaveValues }
{}

/// With its runs a design keeps to what clusters, pads and bits ask of designs: the flip-flops of each chunk of eight are driven alike,
/// no carry is read as a net, and each cell that has a carry stands in one run.
pub fn runs_are_formed()
    ensures { RunsAreFormed }
{}
