//! The connections of a gate.
ghost use Rattle.std.specs.Prelude.{◌≡◌, ◌<◌, All};
ghost use Rattle.ice_net.specs.Formed.{IsBelow};

use ice_base::SignalNo;
use ice_ram_words::RAM_PLACES;

/// The connections of a gate, by the places of its inputs and then its outputs. A RAM has the most.
#[derive(Clone, Copy)]
pub(crate) struct Wiring {
    /// Whether the port was named.
    pub(crate) taken: [bool; RAM_PLACES],
    /// The signal at the port.
    pub(crate) signals: [Option<SignalNo>; RAM_PLACES],
    /// Whether a port was named twice.
    pub(crate) twice: bool,
}

impl Wiring {
    ghost use Rattle.ice_blif.specs.Grammar.{no_wiring, wired};
    ghost use Rattle.ice_blif.specs.Views.{wiring_view};

    /// No port is connected.
    pub(crate) fn new() -> Wiring
        ensures wiring { wiring_view result ≡ no_wiring }
        ensures below { All (IsBelow 0) result.signals }
    {
        Wiring {
            taken: [false; RAM_PLACES],
            signals: [None; RAM_PLACES],
            twice: false,
        }
    }

    /// Connects the port of that place.
    pub(crate) fn connect(&mut self, place: usize, signal: Option<SignalNo>)
        requires { place < RAM_PLACES }
        ensures { wiring_view self.new ≡ wired (wiring_view self.old) place signal }
    {
        let taken = self.taken[place];
        self.twice = self.twice || taken;
        self.taken[place] = true;
        self.signals[place] = signal;
    }
}
