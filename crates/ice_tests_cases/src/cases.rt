//! Groups of cases, line by line.
use crate::answer::answer;
use ice_base::NoMemory;
use ice_tests_texts::{Draft, Part, Piece, Setting, Text, word_at};
use std::alloc::{AllocError, Global};
use std::thread::Threads;

/// How far the lines are read.
#[derive(Clone, Copy, PartialEq, Eq)]
enum Stage {
    /// The texts of all groups.
    Before,
    /// What all cases of a group have.
    Group,
    /// A case.
    Case,
}

/// What a line does.
#[derive(Clone, Copy)]
enum Does {
    /// It begins a text.
    Text,
    /// It begins a group.
    Group,
    /// It begins a case.
    Case,
    /// It says what holds for a case.
    Sets(Part),
    /// It adds a piece to the text that is made.
    Adds(Piece),
}

// What a line does, by its first word.
const WORDS: [(&[u8], Does); 15] = [
    (b"text", Does::Text),
    (b"group", Does::Group),
    (b"case", Does::Case),
    (b"words", Does::Sets(Part::Words)),
    (b"then", Does::Sets(Part::Then)),
    (b"moves", Does::Sets(Part::Moves)),
    (b"fails", Does::Sets(Part::Fails)),
    (b"gate", Does::Sets(Part::Gate)),
    (b"places", Does::Sets(Part::Places)),
    (b"shows", Does::Sets(Part::Shows)),
    (b"finds", Does::Sets(Part::Finds)),
    (b"until", Does::Adds(Piece::Until)),
    (b"copy", Does::Adds(Piece::Copy)),
    (b"sample", Does::Adds(Piece::Sample)),
    (b"netlist", Does::Adds(Piece::Netlist)),
];

// What a line of this first word does, where a word says it.
fn said_by(first: &[u8]) -> Option<Does> {
    for (word, does) in &WORDS {
        if *word == first {
            return Some(*does);
        }
    }
    None
}

/// The texts so far, and what holds for the group and for the case.
#[derive(Drop)]
pub struct Cases<'a> {
    texts: Vec<Text<'a>>,
    draft: Option<Draft<'a>>,
    stage: Stage,
    /// How many texts all groups have, and how many the cases of this group have.
    common: usize,
    shared: usize,
    group: Setting<'a>,
    case: Setting<'a>,
}

/// Whether a line begins a group or a case, so that a case ends before it.
pub fn heads(line: &[u8]) -> bool {
    let word = word_at(line, 0);
    word == b"group".as_slice() || word == b"case".as_slice()
}

impl<'a> Cases<'a> {
    /// No cases.
    pub fn new(alloc: Global) -> Cases<'a> {
        Cases {
            texts: Vec::new(alloc),
            draft: None,
            stage: Stage::Before,
            common: 0,
            shared: 0,
            group: Setting::new(b""),
            case: Setting::new(b""),
        }
    }

    // Ends the text that is made.
    fn end_text(&mut self) -> Result<(), AllocError> {
        if let Some(mut draft) = self.draft.take() {
            draft.follow_to(&self.texts, u32::MAX)?;
            self.texts.push(Text {
                name: draft.name,
                bytes: draft.bytes,
            })?;
        }
        Ok(())
    }

    // Begins a text that follows another one.
    fn begin_text(
        &mut self,
        alloc: Global,
        name: &'a [u8],
        base: &'a [u8],
    ) -> Result<(), AllocError> {
        self.end_text()?;
        self.draft = Some(Draft::new(alloc, name, base));
        Ok(())
    }

    /// Ends a case: the text of its answer, and nothing where no case is open.
    pub fn close<R: Threads + Sync>(
        &mut self,
        rt: &R,
        alloc: Global,
    ) -> Result<Vec<u8>, AllocError> {
        self.end_text()?;
        if self.stage != Stage::Case {
            return Ok(Vec::new(alloc));
        }
        let said = answer(rt, alloc, &self.case, &self.texts)?;
        self.texts.truncate(self.shared);
        Ok(said)
    }

    // Begins a group.
    fn begin_group(&mut self, line: &'a [u8]) {
        if self.stage == Stage::Before {
            self.common = self.texts.len();
        }
        self.texts.truncate(self.common);
        self.case = Setting::new(word_at(line, 1));
        self.stage = Stage::Group;
    }

    // Begins a case. Its first pieces change the last text of the group.
    fn begin_case(&mut self, alloc: Global) -> Result<(), AllocError> {
        if self.stage == Stage::Group {
            self.shared = self.texts.len();
            self.group = self.case;
        }
        self.group.number = self.group.number.saturating_add(1);
        self.case = self.group;
        self.stage = Stage::Case;
        let last = self.texts.last().map(|text| text.name);
        match last {
            Some(name) => self.begin_text(alloc, name, name),
            None => Ok(()),
        }
    }

    // Adds a piece to the text that is made. Whether there is one.
    fn add_piece(&mut self, alloc: Global, piece: Piece, line: &[u8]) -> Result<bool, NoMemory> {
        let Some(draft) = &mut self.draft else {
            return Ok(false);
        };
        draft.add(alloc, &self.texts, piece, line)?;
        Ok(true)
    }

    // Adds a line of a mark to the text that is made. Whether the line is one, and there is such a text.
    fn add_marked(&mut self, line: &[u8]) -> Result<bool, NoMemory> {
        match &mut self.draft {
            Some(draft) => Ok(draft.add_marked(&self.texts, line)?),
            None => Ok(false),
        }
    }

    /// Does what a line says. Whether it is a line of cases.
    pub fn follow(&mut self, alloc: Global, line: &'a [u8]) -> Result<bool, NoMemory> {
        let first = word_at(line, 0);
        match said_by(first) {
            Some(Does::Text) => self.begin_text(alloc, word_at(line, 1), word_at(line, 2))?,
            Some(Does::Group) => self.begin_group(line),
            Some(Does::Case) => self.begin_case(alloc)?,
            Some(Does::Sets(part)) => self.case.set(part, line),
            Some(Does::Adds(piece)) => return self.add_piece(alloc, piece, line),
            None if first.is_empty() || first.starts_with(b"#") => {}
            None => return self.add_marked(line),
        }
        Ok(true)
    }
}
