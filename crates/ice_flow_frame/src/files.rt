//! The files of a command, and texts: those of files, which are read one after another, each to its end, and those that are made.
ghost use Rattle.std.specs.Prelude.{◌≡◌, ◌<◌, ◌≤◌, ◌++◌, ◌∷◌, [], length, OnOk, OnErr, IfOk, IfErr};
ghost use Rattle.ice_desk.specs.Changes.{SameButReading, SameTest};
ghost use Rattle.ice_flow_frame.specs.Reading.{most_bytes, IsUnread, TellsLong};
ghost use Rattle.ice_flow_frame.specs.TextLists.{texts_view};
ghost use Rattle.ice_flow_frame.specs.Texts.{files_view, ArePermitted, AreTexts, text_at};

use crate::cause::{Cause, FileRole};
use crate::reading::read_text;
use ice_base::NoMemory;
use ice_desk::Desk;
use std::alloc::Global;
use std::marker::Model;

/// A file that a command reads or writes: what it is to the command, and its name.
#[derive(Clone, Copy)]
pub struct CommandFile<'a> {
    /// What the file is to the command.
    pub role: FileRole,
    /// The name of the file.
    pub name: &'a str,
}

/// The texts of a command's files, in the order of reading or of writing.
#[derive(Drop)]
pub struct Texts {
    texts: Vec<Vec<u8>>,
}

impl Model for Texts {
    ghost use Rattle.std.specs.Prelude.{List, ℕ};
    ghost use Rattle.ice_flow_frame.specs.TextLists.{texts_view};

    ghost Value = { List (List ℕ) };

    ghost view = { λ t. texts_view t.texts.items };
}

impl Texts {
    /// The text at a place, from 1. There is none at other places.
    #[tactic(auto, using(crate::proofs::TextFacts::text_at_place, crate::proofs::TextFacts::no_text_at))]
    pub fn at(&self, place: usize) -> &[u8]
        ensures { result.now ≡ text_at self.now place }
    {
        if place == 0 {
            return &[];
        }
        if place > self.texts.len() {
            return &[];
        }
        self.texts[place - 1].as_slice()
    }

    /// Adds a text behind the others.
    ///
    /// # Errors
    /// Want of memory; the texts are as before.
    pub fn add(&mut self, text: Vec<u8>) -> Result<(), NoMemory>
        ensures added { OnOk result (self.new ≡ self.old ++ text.items ∷ []) }
        ensures kept { OnErr result (self.new ≡ self.old) }
    {
        add_text(&mut self.texts, text)
    }
}

/// One text.
///
/// # Errors
/// Want of memory.
pub fn one_text(alloc: Global, text: Vec<u8>) -> Result<Texts, NoMemory>
    ensures { IfOk result (λ texts. texts ≡ text.items ∷ []) }
{
    let mut texts = Vec::new(alloc);
    add_text(&mut texts, text)?;
    Ok(Texts { texts })
}

// One text more.
fn add_text(texts: &mut Vec<Vec<u8>>, text: Vec<u8>) -> Result<(), NoMemory>
    ensures added { OnOk result
        (texts_view texts.new.items ≡ texts_view texts.old.items ++ text.items ∷ []) }
    ensures kept { OnErr result (texts_view texts.new.items ≡ texts_view texts.old.items) }
{
    Ok(texts.push(text)?)
}

/// The texts of files, read in this order, each to its end.
///
/// # Errors
/// What stopped the reading, and at which file.
pub fn read_texts<D: Desk>(
    alloc: Global,
    desk: &mut D,
    files: &[CommandFile<'_>],
) -> Result<Texts, Cause>
    requires { ArePermitted (D.may_read desk.old) (files_view files.now) }
    ensures same { SameButReading (D.seen desk.old) (D.seen desk.new) }
    ensures names_read { SameTest (D.may_read desk.old) (D.may_read desk.new) }
    ensures names_written { SameTest (D.may_write desk.old) (D.may_write desk.new) }
    ensures texts { IfOk result (λ texts. AreTexts (files_view files.now) (D.seen desk.old) texts) }
    ensures stop { IfErr result (λ cause.
        IsUnread (files_view files.now) (D.seen desk.old) (D.seen desk.new) cause) }
    ensures given { OnOk result (0 < length files.now → (D.seen desk.new).given ≤ most_bytes) }
    ensures given_stop { IfErr result (λ cause. TellsLong (D.seen desk.new) cause) }
{
    let mut texts = Vec::new(alloc);
    let mut read = 0;
    while read < files.len() {
        let file = files[read];
        let text = match read_text(alloc, desk, file.name, file.role) {
            Ok(text) => text,
            Err(cause) => return Err(cause),
        };
        match add_text(&mut texts, text) {
            Ok(()) => read += 1,
            Err(NoMemory) => return Err(Cause::NoMemory),
        }
    }
    Ok(Texts { texts })
}
