//! What holds for a case.
use ice_base::NetNo;
use ice_desk::{Gate, MeetGate};

/// What holds for a run: each is a line, whose first word says what it is.
#[derive(Clone, Copy)]
pub struct Setting<'a> {
    /// The name of the group.
    pub group: &'a [u8],
    /// The number of the case in the group.
    pub number: u32,
    /// The words of the run.
    pub words: &'a [u8],
    /// The words of later runs over the same desk, with the word `then` between two runs.
    pub then: &'a [u8],
    /// How many bytes a call of the desk moves at most.
    pub moves: &'a [u8],
    /// The calls that fail, each a kind and a number.
    pub fails: &'a [u8],
    /// A line where the workers pass a gate at which two meet, and nothing where the gate is open.
    pub gate: &'a [u8],
    /// A line where it is told whether the runs place differently.
    pub places: &'a [u8],
    /// The names of the files that are told.
    pub shows: &'a [u8],
    /// The name of a file, and how those of its lines begin that are told.
    pub finds: &'a [u8],
}

/// The parts of a setting that lines say.
#[derive(Clone, Copy)]
pub enum Part {
    /// The words of the run.
    Words,
    /// The words of the later runs.
    Then,
    /// How many bytes a call of the desk moves.
    Moves,
    /// The calls that fail.
    Fails,
    /// The gate of the workers.
    Gate,
    /// Whether the runs place differently.
    Places,
    /// The files that are told.
    Shows,
    /// The lines of a file that are told.
    Finds,
}

impl<'a> Setting<'a> {
    /// Nothing but the name of the group.
    pub fn new(group: &'a [u8]) -> Setting<'a> {
        Setting {
            group,
            number: 0,
            words: &[],
            then: &[],
            moves: &[],
            fails: &[],
            gate: &[],
            places: &[],
            shows: &[],
            finds: &[],
        }
    }

    /// Lets this line say the part.
    pub fn set(&mut self, part: Part, line: &'a [u8]) {
        match part {
            Part::Words => self.words = line,
            Part::Then => self.then = line,
            Part::Moves => self.moves = line,
            Part::Fails => self.fails = line,
            Part::Gate => self.gate = line,
            Part::Places => self.places = line,
            Part::Shows => self.shows = line,
            Part::Finds => self.finds = line,
        }
    }
}

/// What the workers of a case pass.
#[derive(Drop)]
pub enum CaseGate {
    /// Nothing.
    Open,
    /// A gate at which two workers meet.
    Meeting(MeetGate),
}

impl CaseGate {
    /// The gate of a case with this line.
    pub fn of(line: &[u8]) -> CaseGate {
        if line.is_empty() {
            return CaseGate::Open;
        }
        CaseGate::Meeting(MeetGate::new())
    }
}

impl Gate for CaseGate {
    fn pass(&self, worker: u32, net: NetNo) {
        match self {
            CaseGate::Open => {}
            CaseGate::Meeting(gate) => gate.pass(worker, net),
        }
    }
}
