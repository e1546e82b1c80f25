//! The desk over real files and standard output: the trusted edge, of which no contents are known.
ghost use Rattle.std.specs.Prelude.{◌≡◌, ◌<◌, ◌≤◌, length, false, None, IfOk, is_some};
ghost use Rattle.std.specs.Io.{WritesAtMost};
ghost use Rattle.ice_desk.specs.Changes.{fresh};

use crate::{Desk, Failed};
use std::fs::Files;
use std::io::{Print, Read, Write};
use std::{fs, io};

/// A desk over the files and the standard output of a system. It tells nothing of contents; its counts
/// are true. A file that is taken is closed at the next `make` or at the desk's end, and what closing
/// answers is not seen.
#[derive(Drop)]
pub struct HostDesk<R: Files + Print + Drop> {
    system: R,
    source: Option<R::File>,
    target: Option<R::File>,
    given: u64,
    begins: u64,
    makes: u64,
    puts: u64,
    says: u64,
    read_faults: u64,
    write_faults: u64,
    say_faults: u64,
    ghost unbegun: { begins ≡ 0 → source ≡ None },
}

impl<R: Files + Print + Drop> HostDesk<R> {
    /// A desk over this system. Takes no memory.
    pub fn new(system: R) -> HostDesk<R>
        ensures { ⟦<HostDesk<R> as Desk>⟧.seen result ≡ fresh false (λ _. None) }
    {
        HostDesk {
            system,
            source: None,
            target: None,
            given: 0,
            begins: 0,
            makes: 0,
            puts: 0,
            says: 0,
            read_faults: 0,
            write_faults: 0,
            say_faults: 0,
        }
    }
}

/// Reads from a file, and nothing where there is none.
fn read_from<F: Read>(source: &mut Option<F>, piece: &mut [u8]) -> io::Result<usize>
    ensures within { IfOk result (λ n. n ≤ length piece.new) }
    ensures nothing { source.old ≡ None → IfOk result (λ n. n ≡ 0) }
    ensures kept { source.old ≡ None → source.new ≡ None }
{
    match source {
        Some(file) => file.read(piece),
        None => Ok(0),
    }
}

/// How many bytes of a piece a writer took. None of a piece that isn't empty is a fault.
fn taken_of(answer: io::Result<usize>, piece: &[u8]) -> Result<usize, Failed>
    requires { WritesAtMost answer piece.now }
    ensures { IfOk result (λ n. (n ≤ length piece.now) × (0 < length piece.now → 0 < n)) }
{
    match answer {
        Ok(count) if count > 0 || piece.is_empty() => Ok(count),
        _ => Err(Failed),
    }
}

impl<R: Files + Print + Drop> Desk for HostDesk<R> {
    ghost use Rattle.std.specs.Prelude.{[], None, false, is_some};

    ghost seen = { λ d. record {
      tells = false;
      files = λ _. None;
      left = [];
      taken = None;
      said = [];
      given = d.given;
      begins = d.begins;
      makes = d.makes;
      says = d.says;
      puts = d.puts;
      is_open = is_some d.target;
      read_faults = d.read_faults;
      write_faults = d.write_faults;
      say_faults = d.say_faults;
    } };

    ghost may_read = { λ d n. Unit {0} };

    ghost may_write = { λ d n. Unit {0} };

    fn begin(&mut self, name: &str) -> Result<(), Failed> {
        self.begins = self.begins.saturating_add(1);
        self.given = 0;
        self.source = None;
        match fs::open(&self.system, name) {
            Ok(file) => {
                self.source = Some(file);
                Ok(())
            }
            Err(_) => {
                self.read_faults = self.read_faults.saturating_add(1);
                Err(Failed)
            }
        }
    }

    fn read(&mut self, piece: &mut [u8]) -> Result<usize, Failed> {
        match read_from(&mut self.source, piece) {
            Ok(count) => {
                self.given = self.given.saturating_add(count as u64);
                Ok(count)
            }
            Err(_) => {
                self.read_faults = self.read_faults.saturating_add(1);
                Err(Failed)
            }
        }
    }

    fn make(&mut self, name: &str) -> Result<(), Failed> {
        self.makes = self.makes.saturating_add(1);
        self.puts = 0;
        self.target = None;
        match fs::create(&self.system, name) {
            Ok(file) => {
                self.target = Some(file);
                Ok(())
            }
            Err(_) => {
                self.write_faults = self.write_faults.saturating_add(1);
                Err(Failed)
            }
        }
    }

    fn put(&mut self, piece: &[u8]) -> Result<usize, Failed> {
        self.puts = self.puts.saturating_add(1);
        if let Some(file) = &mut self.target {
            if let Ok(count) = taken_of(file.write(piece), piece) {
                return Ok(count);
            }
        }
        self.write_faults = self.write_faults.saturating_add(1);
        Err(Failed)
    }

    fn say(&mut self, piece: &[u8]) -> Result<usize, Failed> {
        self.says = self.says.saturating_add(1);
        if let Ok(count) = taken_of(self.system.write_some(piece), piece) {
            return Ok(count);
        }
        self.write_faults = self.write_faults.saturating_add(1);
        self.say_faults = self.say_faults.saturating_add(1);
        Err(Failed)
    }
}
