//! The runs of a case, and what is said of them.
use ice_base::TileAt;
use ice_desk::MemoryDesk;
use ice_flow::run;
use ice_flow_frame::{Cause, Done};
use ice_tests_texts::{
    CaseGate, Setting, Text, add_lines, add_meeting, add_number, add_shown, desk_of, runs_in,
    words_of_run,
};
use std::alloc::{AllocError, Global};
use std::thread::Threads;

// What the runs of a case share, and what they have placed.
#[derive(Drop)]
struct Runs {
    desk: MemoryDesk,
    gate: CaseGate,
    // The answer of the first run.
    first: Option<Done>,
    // Whether a later run placed otherwise.
    differ: bool,
}

// The tiles of the clusters of what was built, or none.
fn tiles_of(done: &Done) -> &[TileAt] {
    match &done.cause {
        Cause::Good { arrangement, .. } => arrangement.placement.tiles(),
        _ => &[],
    }
}

impl Runs {
    // Notes what a run has placed.
    fn note(&mut self, done: Done) {
        let differs = match &self.first {
            Some(first) => tiles_of(first) != tiles_of(&done),
            None => false,
        };
        self.differ = self.differ || differs;
        if self.first.is_none() {
            self.first = Some(done);
        } else {
            drop(done);
        }
    }
}

// Does what the words of a run ask for, and adds the status behind this, and what was said.
fn add_run<R: Threads + Sync>(
    rt: &R,
    out: &mut Vec<u8>,
    before: &[u8],
    line: &[u8],
    number: u32,
    runs: &mut Runs,
) -> Result<(), AllocError> {
    let alloc = *out.allocator();
    let words = words_of_run(alloc, line, number)?;
    let said = runs.desk.said().len();
    let done = run(rt, alloc, &words, &mut runs.desk, &runs.gate);
    drop(words);
    let status = done.status;
    runs.note(done);
    add_number(out, before, u64::from(status))?;
    out.push(b'\n')?;
    add_lines(out, runs.desk.said().get(said..).unwrap_or(&[]))
}

// Adds the runs of a line, each behind this.
fn add_runs<R: Threads + Sync>(
    rt: &R,
    out: &mut Vec<u8>,
    before: &[u8],
    line: &[u8],
    runs: &mut Runs,
) -> Result<(), AllocError> {
    for number in 0..runs_in(line) {
        add_run(rt, out, before, line, number, runs)?;
    }
    Ok(())
}

// Adds whether the runs have placed differently, where a case asks.
fn add_places(out: &mut Vec<u8>, case: &Setting<'_>, runs: &Runs) -> Result<(), AllocError> {
    if case.places.is_empty() {
        return Ok(());
    }
    out.extend_from_slice(if runs.differ {
        b"placements differ\n".as_slice()
    } else {
        b"no placements differ\n"
    })
}

// Adds the runs of a case, and the files that it shows.
fn add_answer<R: Threads + Sync>(
    rt: &R,
    out: &mut Vec<u8>,
    case: &Setting<'_>,
    runs: &mut Runs,
) -> Result<(), AllocError> {
    out.extend_from_slice(case.group)?;
    add_number(out, b" ", u64::from(case.number))?;
    add_runs(rt, out, b": status ", case.words, runs)?;
    add_runs(rt, out, b"then status ", case.then, runs)?;
    add_meeting(out, &runs.gate)?;
    add_places(out, case, runs)?;
    add_shown(out, case, &runs.desk)
}

/// The answer to a case, as text.
pub fn answer<R: Threads + Sync>(
    rt: &R,
    alloc: Global,
    case: &Setting<'_>,
    texts: &[Text<'_>],
) -> Result<Vec<u8>, AllocError> {
    let mut runs = Runs {
        desk: desk_of(alloc, case, texts)?,
        gate: CaseGate::of(case.gate),
        first: None,
        differ: false,
    };
    let mut out = Vec::new(alloc);
    let added = add_answer(rt, &mut out, case, &mut runs);
    drop(runs);
    added.and(Ok(out))
}
