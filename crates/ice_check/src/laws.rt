//! Laws of netlists that are checked. The functions do nothing: their contracts are the laws.
ghost use Rattle.ice_check.specs.Laws.{SignalsHaveValues, SignalValuesAreUnique, FaultsAreNotSound};

/// Where the signals have an order of evaluation, each has a value at each moment.
pub fn signals_have_values()
    ensures { SignalsHaveValues }
{}

/// Then levels of signals that meet all equations of the netlist at a moment are the values.
pub fn signal_values_are_unique()
    ensures { SignalValuesAreUnique }
{}

/// A netlist with a fault is not sound.
pub fn faults_are_not_sound()
    ensures { FaultsAreNotSound }
{}
