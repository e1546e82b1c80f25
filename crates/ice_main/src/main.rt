//! The program: reads the words after its name, works on real files, and ends with the status of the answer.
#![tactic(auto)]

use ice_desk::{HostDesk, OpenGate};
use ice_flow::run;
use ice_flow_words::usage_for;
use std::alloc::Global;
use std::env::{self, Env};
use std::io::{self, Eprint};
use std::process::ExitCode;

/// The status of an answer to words that are refused.
const USAGE: u8 = 2;

/// The status of an answer for want of memory.
const NO_MEMORY: u8 = 13;

// The words after the program's name. Words that are not UTF-8 are an error.
fn read_words<R: Env + Alloc<A = Global>>(rt: &R) -> io::Result<Vec<String>> {
    let mut words = Vec::new(rt.alloc());
    for word in env::args(rt)?.skip(1) {
        words.push(word)?;
    }
    Ok(words)
}

// The words, where there are any that can be read: words that are not UTF-8 ask for nothing, as no words do.
fn words_or_none<R: Env + Alloc<A = Global>>(rt: &R) -> Option<Vec<String>> {
    match read_words(rt) {
        Ok(words) => Some(words),
        Err(e) => {
            if e.kind() == io::ErrorKind::OutOfMemory {
                return None;
            }
            Some(Vec::new(rt.alloc()))
        }
    }
}

// Says on standard error why words are refused, with the usage, or the help where they call for it. Where that can't be said, nothing is.
fn say_usage<R: Eprint + Alloc<A = Global>>(rt: &R, words: &[String]) {
    if let Some(usage) = usage_for(rt.alloc(), words) {
        let _said = rt.eprint(usage);
    }
}

fn main(rt: HostRuntime) -> ExitCode {
    let alloc = rt.alloc();
    let Some(words) = words_or_none(&rt) else {
        let _printed = println!(rt; "error 13 memory");
        return ExitCode::from(NO_MEMORY);
    };
    let mut desk = HostDesk::new(&rt);
    let done = run(&rt, alloc, &words, &mut desk, &OpenGate);
    let status = done.status;
    drop(done);
    if status == USAGE {
        say_usage(&rt, &words);
    }
    ExitCode::from(status)
}
