//! Cases as data. The program reads cases on its standard input, runs the flow over a desk in memory for each, and says the status, what
//! was said and the files. The head of the file `stdin` says the form.
//!
//! Before that it shows what stands between the passes for each netlist that it is called with. It is for tests, and no part of the flow.
#![tactic(auto)]

mod answer;
mod cases;
mod netlists;

use anyhow::Result;
use cases::{Cases, heads};
use ice_base::lines_of;
use ice_chip::Chip;
use ice_chip_read::read_chip;
use ice_sample::sample_chip;
use netlists::show_netlists;
use std::alloc::Global;
use std::env::{self, Env};
use std::fs::Files;
use std::io::{self, Input, Print, Read, Write};
use std::thread::Threads;

// The words after the program's name.
fn words_of<R: Env + Alloc<A = Global>>(rt: &R) -> io::Result<Vec<String>> {
    let mut words = Vec::new(rt.alloc());
    for word in env::args(rt)?.skip(1) {
        words.push(word)?;
    }
    Ok(words)
}

// The sample chip of 14 by 18 tiles.
fn chip_of_netlists(alloc: Global) -> Result<Chip> {
    let mut text = Vec::new(alloc);
    sample_chip(alloc, 14, 18, &mut text)?;
    let chip = read_chip(alloc, &text)?;
    Ok(chip)
}

// Shows the netlists in files of these names, where there are any.
fn show_named<R: Files + Print + Threads + Sync + Alloc<A = Global>>(
    rt: &R,
    words: &[String],
) -> Result<()> {
    if words.is_empty() {
        return Ok(());
    }
    let chip = chip_of_netlists(rt.alloc())?;
    let shown = show_netlists(rt, &chip, words);
    drop(chip);
    shown
}

// Says the answer of the case that ends here, where one does.
fn close<W: Write + Drop, R: Threads + Sync>(
    rt: &R,
    alloc: Global,
    out: &mut W,
    cases: &mut Cases<'_>,
) -> Result<()> {
    let said = cases.close(rt, alloc)?;
    out.write_all(&said)?;
    Ok(())
}

// Runs the cases of a text.
fn play<'a, W: Write + Drop, R: Threads + Sync>(
    rt: &R,
    alloc: Global,
    out: &mut W,
    cases: &mut Cases<'a>,
    text: &'a [u8],
) -> Result<()> {
    for line in lines_of(text) {
        if heads(line.text) {
            close(rt, alloc, out, cases)?;
        }
        if !cases.follow(alloc, line.text)? {
            anyhow::bail!("no line of a case is line {}", line.number);
        }
    }
    close(rt, alloc, out, cases)
}

fn main(rt: HostRuntime) -> Result<()> {
    let words = words_of(&rt)?;
    let shown = show_named(&rt, &words);
    drop(words);
    shown?;
    let alloc = rt.alloc();
    let mut text = Vec::new(alloc);
    rt.reader().read_to_end(&mut text)?;
    let mut cases = Cases::new(alloc);
    play(&rt, alloc, &mut io::writer(&rt), &mut cases, &text)
}
