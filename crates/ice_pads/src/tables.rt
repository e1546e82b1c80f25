//! What the constraints so far give, found by ports and by pads.
ghost use Rattle.std.specs.Prelude.{◌≡◌, ◌==◌, ℕ, ◌<◌, ◌++◌, ◌∷◌, [], length, slice_index_or, None, Some, if◌then◌else◌, OnOk};
ghost use Rattle.std.specs.Option.{option_or};
ghost use Rattle.std.specs.HashMap.{get_by};
ghost use Rattle.ice_chip.specs.Database.{same_pad};
ghost use Rattle.ice_chip.specs.declared.rows.Pad.{Pad};
ghost use Rattle.ice_pads.specs.Constraints.{of_port, of_pad};
ghost use Rattle.ice_pads.specs.Tables.{AreKept};

use crate::Given;
use ice_base::NoMemory;
use ice_chip::Pad;
use std::alloc::Global;
use std::collections::HashMap;

/// What the constraints so far give, in the order of their lines, and what the first of them gives to each port and of
/// each pad.
#[derive(Drop)]
pub struct Tables {
    /// What each line gives.
    pub given: Vec<Given>,
    /// What each port gets; nothing stands behind the end.
    pub ports: Vec<Option<Given>>,
    /// Who gets each pad.
    pub pads: HashMap<Pad, Given>,
}

// Makes room for what a port gets.
fn reach(ports: &mut Vec<Option<Given>>, index: usize) -> Result<(), NoMemory>
    ensures same { (s : ℕ)
        → slice_index_or ports.new.items s None ≡ slice_index_or ports.old.items s None }
    ensures room { OnOk result (index < length ports.new.items) }
{
    if index == usize::MAX {
        return Err(NoMemory);
    }
    if index >= ports.len() {
        ports.resize(index + 1, None)?;
    }
    Ok(())
}

// Notes what a port gets, unless it has something.
fn note_port(ports: &mut Vec<Option<Given>>, given: Given) -> Result<(), NoMemory>
    ensures { OnOk result ((s : ℕ) → slice_index_or ports.new.items s None ≡ option_or
        (slice_index_or ports.old.items s None) (if given.port == s then Some given else None)) }
{
    reach(ports, given.port)?;
    if ports[given.port].is_none() {
        ports[given.port] = Some(given);
    }
    Ok(())
}

// Notes who gets a pad, unless someone has it.
fn note_pad(pads: &mut HashMap<Pad, Given>, given: Given) -> Result<(), NoMemory>
    ensures { OnOk result ((p : Pad) → get_by (same_pad p) pads.new ≡ option_or
        (get_by (same_pad p) pads.old) (if same_pad p given.pad then Some given else None)) }
{
    if pads.get(&given.pad).is_none() {
        pads.insert(given.pad, given)?;
    }
    Ok(())
}

impl Tables {
    /// Nothing yet. Takes no memory.
    pub fn new(alloc: Global) -> Tables
        ensures given { result.given.items ≡ [] }
        ensures kept { AreKept result }
    {
        Tables {
            given: Vec::new(alloc),
            ports: Vec::new(alloc),
            pads: HashMap::new(alloc),
        }
    }

    /// What the first line with this port gives.
    pub fn of_port(&self, port: usize) -> Option<Given>
        requires { AreKept self.now }
        ensures { result ≡ of_port self.now.given.items port }
    {
        *self.ports.get(port)?
    }

    /// What the first line with this pad gives.
    pub fn of_pad(&self, pad: Pad) -> Option<Given>
        requires { AreKept self.now }
        ensures { result ≡ of_pad self.now.given.items pad }
    {
        self.pads.get(&pad).copied()
    }

    /// Notes what a line gives.
    pub fn push(&mut self, given: Given) -> Result<(), NoMemory>
        requires { AreKept self.old }
        ensures added { OnOk result (self.new.given.items ≡ self.old.given.items ++ given ∷ []) }
        ensures kept { OnOk result (AreKept self.new) }
    {
        note_port(&mut self.ports, given)?;
        note_pad(&mut self.pads, given)?;
        self.given.push(given)?;
        Ok(())
    }
}
