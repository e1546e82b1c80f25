//! What the ports so far have.
ghost use Rattle.std.specs.Prelude.{◌≡◌, ◌<◌, ◌++◌, ◌∷◌, [], List, length, if◌then◌else◌, slice_set, OnOk};
ghost use Rattle.ice_chip.specs.Database.{Parts};
ghost use Rattle.ice_chip.specs.declared.rows.Pad.{Pad};
ghost use Rattle.ice_pads.specs.declared.given.Given.{Given};
ghost use Rattle.ice_pads.specs.Tables.{kind_of, AreTaken, AreDone};

use crate::{Chosen, Want};
use ice_base::NoMemory;
use ice_chip::Pad;
use std::alloc::Global;
use std::collections::HashSet;

/// What the ports so far have, and for each kind of want a place in the list of pads before which none fits.
#[derive(Drop)]
pub struct Progress {
    /// What each port has.
    pub chosen: Vec<Chosen>,
    /// The pads of these ports.
    pub taken: HashSet<Pad>,
    /// The starting places, by the numbers of the wires.
    pub starts: [usize; 8],
}

// A number where something is needed, and else 0.
fn weight(needs: bool, number: usize) -> usize
    ensures { result ≡ (if needs then number else 0) }
{
    if needs { number } else { 0 }
}

/// The number of the wires that a port needs.
pub fn kind_of(want: Want) -> usize
    ensures value { result ≡ kind_of want }
    ensures few { result < 8 }
{
    let input = weight(want.input, 1);
    let output = weight(want.output, 2);
    let enable = weight(want.enable, 4);
    input + output + enable
}

impl Progress {
    /// No port has anything. Takes no memory.
    pub fn new(alloc: Global) -> Progress
        ensures chosen { result.chosen.items ≡ [] }
        ensures done { (parts : Parts) (pads : List Pad) (given : List Given)
            → AreDone parts pads given result }
    {
        Progress {
            chosen: Vec::new(alloc),
            taken: HashSet::new(alloc),
            starts: [0; 8],
        }
    }

    /// Gives the next port this.
    pub fn push(&mut self, chosen: Chosen) -> Result<(), NoMemory>
        requires { AreTaken self.old.chosen.items self.old.taken }
        ensures added { OnOk result (self.new.chosen.items ≡ self.old.chosen.items ++ chosen ∷ []) }
        ensures taken { OnOk result (AreTaken self.new.chosen.items self.new.taken) }
        ensures starts { self.new.starts ≡ self.old.starts }
    {
        self.taken.insert(chosen.pad)?;
        self.chosen.push(chosen)?;
        Ok(())
    }
}
