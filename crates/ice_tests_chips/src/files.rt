//! Files that are read piece by piece: a read that fails at each place, and a limit.
use crate::claims::expect_that;
use ice_base::Name;
use ice_chip_read_pieces::ChipReader;
use ice_desk::{DeskCall, MemoryDesk, ReadStop};
use ice_desk_pieces::read_pieces;
use ice_tests_small_chips::{Sample, text_with};
use std::alloc::{AllocError, Global};
use std::process::Abort;

// How many bytes a read gives at most.
const MOST: usize = 64;

// A desk with this text in the file `chip`, of which this read fails.
fn desk_of(alloc: Global, text: &[u8], fails: u64) -> Result<MemoryDesk, AllocError> {
    let mut files = Vec::new(alloc);
    let name = Name::from_bytes(Vec::from_slice(alloc, b"chip")?);
    files.push((name, Vec::from_slice(alloc, text)?))?;
    let mut failing = Vec::new(alloc);
    failing.push((DeskCall::Read, fails))?;
    Ok(MemoryDesk::new(alloc, files, MOST, failing))
}

// How the reading of the file ends, and how many bytes of it are kept.
fn read(alloc: Global, desk: &mut MemoryDesk, limit: usize) -> (Result<(), ReadStop>, usize) {
    let Ok(mut reader) = ChipReader::new(alloc) else {
        return (Err(ReadStop::NoMemory), 0);
    };
    let result = read_pieces(desk, "chip", limit, &mut reader);
    let kept = reader.kept();
    drop(reader);
    (result, kept)
}

// How many of the first bytes of a text are behind a line feed.
fn rest_of(text: &[u8], count: usize) -> usize {
    let mut rest: usize = 0;
    for byte in text.iter().take(count) {
        rest = if *byte == b'\n' {
            0
        } else {
            rest.saturating_add(1)
        };
    }
    rest
}

// Fails unless the reading of a file ends so, where this read fails, and as much is kept as of so many bytes.
fn expect_end(
    rt: &impl Abort,
    alloc: Global,
    text: &[u8],
    (fails, limit): (u64, usize),
    expected: Result<(), ReadStop>,
    count: usize,
) {
    let mut desk = desk_of(alloc, text, fails).expect(rt, "memory");
    let (result, kept) = read(alloc, &mut desk, limit);
    drop(desk);
    expect_that(rt, result == expected, b"result");
    expect_that(rt, kept == rest_of(text, count), b"kept");
}

// How many reads it takes to the end of the text of two tiles.
const READS: usize = 12;

#[test]
fn files_are_read_up_to_a_fault_or_a_limit(rt: HostRuntime) {
    let alloc = rt.alloc();
    let text = text_with(alloc, Sample::TwoTiles, &[]).expect(&rt, "memory");
    for read in 0..READS {
        let failed = Err(ReadStop::Failed);
        let count = read * MOST;
        expect_end(&rt, alloc, &text, (read as u64 + 1, 1000), failed, count);
    }
    expect_end(&rt, alloc, &text, (0, text.len()), Ok(()), text.len());
    let long = Err(ReadStop::TooLong { limit: 100 });
    expect_end(&rt, alloc, &text, (0, 100), long, MOST);
}
