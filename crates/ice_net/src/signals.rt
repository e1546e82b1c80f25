//! Lists of signals, some of which are missing.
ghost use Rattle.std.specs.Prelude.{◌≡◌, None, slice_index_or};

use ice_base::SignalNo;
use std::marker::Model;

/// The signals at the inputs or at the outputs of a cell, in the order of its ports; None at a port that is not
/// connected. Contracts see it as a list.
#[derive(Drop)]
pub struct Signals {
    items: Vec<Option<SignalNo>>,
}

impl Model for Signals {
    ghost use Rattle.std.specs.Prelude.{List, Option};
    ghost use Rattle.ice_base.specs.declared.number.SignalNo.{SignalNo};

    ghost Value = { List (Option SignalNo) };

    ghost view = { λ signals. signals.items.items };
}

impl Signals {
    /// These signals. Takes no memory.
    pub fn from_vec(items: Vec<Option<SignalNo>>) -> Signals
        ensures { result ≡ items.items }
    {
        Signals { items }
    }

    /// The signals as a Vec. Takes no memory.
    pub fn into_vec(self) -> Vec<Option<SignalNo>>
        ensures { result.items ≡ self }
    {
        self.items
    }

    /// The signals as a slice.
    pub fn as_slice(&self) -> &[Option<SignalNo>]
        ensures { result.now ≡ self.now }
    {
        self.items.as_slice()
    }
}

/// The signal at a place of a list; None where it is missing, or behind the list's end.
pub fn signal_at(signals: &[Option<SignalNo>], place: usize) -> Option<SignalNo>
    ensures { result ≡ slice_index_or signals.now place None }
{
    *signals.get(place)?
}
