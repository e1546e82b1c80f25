//! A reader of the text of a chip database that is given the text piece by piece.
ghost use Rattle.std.specs.Prelude.{◌≡◌, ℕ, List, [], ◌∷◌, ◌++◌, length, OnOk, OnErr, IfOk, IfNone, IfSome, IsErr, IsErrOf};
ghost use Rattle.ice_base.specs.Lines.{IsLine};
ghost use Rattle.ice_chip.specs.Answers.{Answers};
ghost use Rattle.ice_chip_read.specs.Whole.{chip_says};
ghost use Rattle.ice_chip_read_pieces.specs.Stands.{Follows, StandsFor, IsSpent, IsKept, IsStep};
ghost use Rattle.ice_desk_pieces.specs.Taken.{TakesMore};

use crate::cut::cut;
use crate::said::{Said, stop, take, take_front};
use ice_base::NoMemory;
use ice_chip::{Chip, ChipFault};
use ice_chip_read::{ChipStop, finish};
use ice_desk_pieces::Taker;
use std::alloc::Global;
use std::marker::Model;

// Room for a line of usual length, in bytes.
const LINE: usize = 256;

/// A reader of the text of a chip database, which stands for the text that it was given so far. Beside the rows of the lines
/// that are ended it holds only the bytes of the line that isn't.
#[derive(Drop)]
pub struct ChipReader {
    alloc: Global,
    // What the ended lines say.
    said: Said,
    // The number of the line that isn't ended.
    number: u32,
    // Its bytes so far; none behind a stop.
    rest: Vec<u8>,
}

impl Model for ChipReader {
    ghost use Rattle.ice_chip_read_pieces.specs.Held.{Held, said_view, IsMade};

    ghost Value = { Held };

    ghost view = { λ r.
        record { said = said_view r.said; number = r.number; rest = r.rest.items } };

    ghost invariant = { λ r. IsMade (said_view r.said) };
}

impl ChipReader {
    /// A reader that was given nothing yet. It takes no memory.
    pub fn empty(alloc: Global) -> ChipReader
        ensures { StandsFor result [] }
    {
        ChipReader {
            alloc,
            said: Said::Nothing,
            number: 1,
            rest: Vec::new(alloc),
        }
    }

    /// A reader that was given nothing yet, with room for a line.
    ///
    /// # Errors
    /// Want of memory.
    pub fn new(alloc: Global) -> Result<ChipReader, NoMemory>
        ensures { IfOk result (λ reader. StandsFor reader []) }
    {
        let rest = Vec::with_capacity(alloc, LINE)?;
        Ok(ChipReader {
            alloc,
            said: Said::Nothing,
            number: 1,
            rest,
        })
    }

    /// Takes the next piece of the text. A fault of the text is told at the end alone.
    ///
    /// # Errors
    /// Want of memory, at this piece or an earlier one.
    pub fn feed(&mut self, piece: &[u8]) -> Result<(), NoMemory>
        ensures taken { OnOk result
            (TakesMore (StandsFor self.old) (StandsFor self.new) piece.now) }
        ensures failed { OnErr result (IsSpent self.new) }
        ensures still { IsSpent self.old → IsErr result }
    {
        let mut left = piece;
        while let Some(behind) = self.take_line(left) {
            left = behind;
        }
        self.keep(left);
        self.has_memory()
    }

    /// The chip that the text writes, or its first fault, as `read_chip` answers of the whole text.
    ///
    /// # Errors
    /// The fault, or want of memory.
    pub fn finish(self) -> Result<Chip, ChipFault>
        ensures chip { (text : List ℕ) → StandsFor self text → Answers result (chip_says text) }
        ensures spent { IsSpent self → IsErrOf result ChipFault.NoMemory }
    {
        let ChipReader {
            alloc,
            mut said,
            number,
            rest,
        } = self;
        take(alloc, &mut said, number, rest.as_slice());
        drop(rest);
        match said {
            Said::Nothing => Err(ChipFault::NoDevice { line: 0 }),
            Said::Rows(reading) => finish(alloc, reading),
            Said::Stopped(stop) => Err(ChipFault::from(stop)),
        }
    }

    /// How many bytes of the text are held: those behind the last line feed, or none after a fault of a line. Takes no
    /// memory.
    pub fn kept(&self) -> usize
        ensures held { result ≡ length self.now.rest }
        ensures kept { (text : List ℕ) → StandsFor self.now text → IsKept text result }
    {
        self.rest.len()
    }

    // Whether memory lasted.
    fn has_memory(&self) -> Result<(), NoMemory>
        ensures ok { OnOk result (IsSpent self.now → ⊥) }
        ensures err { OnErr result (IsSpent self.now) }
    {
        match &self.said {
            Said::Stopped(ChipStop::NoMemory) => Err(NoMemory),
            _ => Ok(()),
        }
    }

    // Takes bytes of the line that isn't ended.
    #[inline(never)]
    fn keep(&mut self, bytes: &[u8])
        requires { IsLine bytes.now }
        ensures taken { TakesMore (Follows self.old) (Follows self.new) bytes.now }
        ensures out { IsSpent self.old → IsSpent self.new }
    {
        if let Said::Stopped(_) = self.said {
            return;
        }
        if self.rest.extend_from_slice(bytes).is_err() {
            stop(&mut self.said, ChipStop::NoMemory);
            self.rest.clear();
        }
    }

    // Ends the line. It stands apart, as few lines lie in two pieces.
    #[cold]
    #[inline(never)]
    fn end(&mut self)
        ensures taken { TakesMore (Follows self.old) (Follows self.new) (10 ∷ []) }
        ensures out { IsSpent self.old → IsSpent self.new }
    {
        take(
            self.alloc,
            &mut self.said,
            self.number,
            self.rest.as_slice(),
        );
        self.rest.clear();
        self.number = self.number.saturating_add(1);
    }

    // Takes the line at the front, where it has a form of the databases and no bytes of it came before: what is behind it.
    #[inline(always)]
    fn take_front<'a>(&mut self, bytes: &'a [u8]) -> Option<&'a [u8]>
        ensures taken { IfSome result (λ rest. IsStep self.old self.new bytes.now rest.now) }
        ensures same { IfNone result (self.new ≡ self.old) }
        ensures out { IsSpent self.old → IsSpent self.new }
    {
        if !self.rest.is_empty() {
            return None;
        }
        let rest = take_front(self.alloc, &mut self.said, self.number, bytes)?;
        self.number = self.number.saturating_add(1);
        Some(rest)
    }

    // Takes the line that ends first in these bytes, whatever its form: what is behind it.
    fn take_whole<'a>(&mut self, bytes: &'a [u8]) -> Option<&'a [u8]>
        ensures taken { IfSome result (λ rest. IsStep self.old self.new bytes.now rest.now) }
        ensures same { IfNone result ((self.new ≡ self.old) × IsLine bytes.now) }
        ensures out { IsSpent self.old → IsSpent self.new }
    {
        let (line, rest) = cut(bytes)?;
        self.end_with(line);
        Some(rest)
    }

    // Takes the line that ends first in these bytes: what is behind it. Where none ends there, nothing is taken.
    #[inline(always)]
    fn take_line<'a>(&mut self, bytes: &'a [u8]) -> Option<&'a [u8]>
        ensures taken { IfSome result (λ rest. IsStep self.old self.new bytes.now rest.now) }
        ensures same { IfNone result ((self.new ≡ self.old) × IsLine bytes.now) }
        ensures out { IsSpent self.old → IsSpent self.new }
    {
        match self.take_front(bytes) {
            Some(rest) => Some(rest),
            None => self.take_whole(bytes),
        }
    }

    // Takes the last bytes of the line that isn't ended, and ends it.
    #[inline(always)]
    fn end_with(&mut self, line: &[u8])
        requires { IsLine line.now }
        ensures taken { TakesMore (Follows self.old) (Follows self.new) (line.now ++ 10 ∷ []) }
        ensures out { IsSpent self.old → IsSpent self.new }
    {
        if self.rest.is_empty() {
            take(self.alloc, &mut self.said, self.number, line);
            self.number = self.number.saturating_add(1);
            return;
        }
        self.keep(line);
        self.end();
    }
}

impl Taker for ChipReader {
    ghost stands = { StandsFor };

    ghost spent = { IsSpent };

    fn take(&mut self, piece: &[u8]) -> Result<(), NoMemory> {
        self.feed(piece)
    }
}
