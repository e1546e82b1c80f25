//! What no clause shows: that calls succeed where there is memory, and that real files and threads behave.
use crate::claims::expect_that;
use ice_base::{Name, NetNo};
use ice_desk::{
    Desk, DeskCall, Failed, Gate, HostDesk, MeetGate, MemoryDesk, OpenGate, ReadStop, WriteStop,
    read_whole, write_whole,
};
use std::alloc::{AllocError, Global};
use std::process::Abort;
use std::{fs, thread};

/// A desk that moves at most three bytes a call, with the file `old` of the bytes `hello`.
fn small_desk(
    alloc: Global,
    fails: Vec<(DeskCall, u64)>,
) -> std::result::Result<MemoryDesk, AllocError> {
    let mut files = Vec::new(alloc);
    let name = Name::from_bytes(Vec::from_slice(alloc, b"old")?);
    files.push((name, Vec::from_slice(alloc, b"hello")?))?;
    Ok(MemoryDesk::new(alloc, files, 3, fails))
}

// Fails unless a file of the desk has these bytes, or is not there where it is nothing.
fn expect_file(rt: &impl Abort, desk: &MemoryDesk, name: &str, bytes: Option<&[u8]>) {
    expect_that(rt, desk.file(name) == bytes, name.as_bytes());
}

// Fails unless these bytes were read.
fn expect_text(rt: &impl Abort, found: Result<Vec<u8>, ReadStop>, bytes: &[u8]) {
    match found {
        Ok(text) => expect_that(rt, text.as_slice() == bytes, bytes),
        Err(_) => expect_that(rt, false, bytes),
    }
}

// Fails unless a read ends with this, or well where it is nothing.
fn expect_read(
    rt: &impl Abort,
    alloc: Global,
    desk: &mut MemoryDesk,
    name: &str,
    limit: usize,
    stop: Option<ReadStop>,
) {
    let found = read_whole(alloc, desk, name, limit).err();
    expect_that(rt, found == stop, name.as_bytes());
}

// Fails unless what is written is read, within the limit.
fn expect_whole(rt: &impl Abort, alloc: Global, desk: &mut MemoryDesk) {
    let written = write_whole(desk, "new", b"seven bytes");
    expect_that(rt, written == Ok(()), b"new");
    expect_file(rt, desk, "new", Some(b"seven bytes"));
    expect_text(rt, read_whole(alloc, desk, "new", 11), b"seven bytes");
    expect_file(rt, desk, "old", Some(b"hello"));
    expect_file(rt, desk, "absent", None);
}

// Fails unless named calls fail.
fn expect_failing(rt: &impl Abort, desk: &mut MemoryDesk) {
    let written = write_whole(desk, "old", b"longer");
    expect_that(rt, written == Err(WriteStop::Failed { put: 2 }), b"old");
    expect_file(rt, desk, "old", Some(b"lon"));
    expect_that(rt, desk.say(b"one") == Ok(3), b"one");
    expect_that(rt, desk.say(b"two") == Err(Failed), b"two");
    expect_that(rt, desk.said() == b"one".as_slice(), b"said");
}

// Fails unless the next read of a piece of four bytes gives these bytes.
fn expect_piece(rt: &impl Abort, desk: &mut MemoryDesk, bytes: &[u8]) {
    let mut piece = [0u8; 4];
    let count = desk.read(&mut piece).unwrap_or(usize::MAX);
    expect_that(rt, piece.get(..count) == Some(bytes), bytes);
}

// Fails unless a file that is made again is read on.
fn expect_read_on(rt: &impl Abort, desk: &mut MemoryDesk) {
    expect_that(rt, desk.begin("old") == Ok(()), b"begun");
    expect_piece(rt, desk, b"hel");
    expect_that(rt, write_whole(desk, "old", b"new") == Ok(()), b"made");
    expect_piece(rt, desk, b"lo");
    expect_piece(rt, desk, b"");
}

// Fails unless a desk without failing calls reads and writes.
fn expect_good(rt: &impl Abort, alloc: Global, desk: &mut MemoryDesk) {
    expect_whole(rt, alloc, desk);
    expect_read(rt, alloc, desk, "old", 5, None);
    let stop = Some(ReadStop::TooLong { limit: 4 });
    expect_read(rt, alloc, desk, "old", 4, stop);
    expect_read(rt, alloc, desk, "absent", 4, Some(ReadStop::Failed));
    expect_read_on(rt, desk);
}

// Fails unless the second put, the first read and the second saying fail.
fn expect_bad(rt: &impl Abort, alloc: Global, desk: &mut MemoryDesk) {
    expect_failing(rt, desk);
    expect_read(rt, alloc, desk, "old", 9, Some(ReadStop::Failed));
    expect_read(rt, alloc, desk, "old", 9, None);
}

// A small desk of which these calls fail.
fn failing_desk(rt: &impl Abort, alloc: Global, calls: &[(DeskCall, u64)]) -> MemoryDesk {
    let fails = Vec::from_slice(alloc, calls).expect(rt, "memory");
    small_desk(alloc, fails).expect(rt, "memory")
}

#[test]
fn desks_read_and_write(rt: HostRuntime) {
    let mut good = failing_desk(&rt, rt.alloc(), &[]);
    expect_good(&rt, rt.alloc(), &mut good);
    drop(good);
    let calls = [(DeskCall::Put, 2), (DeskCall::Read, 1), (DeskCall::Say, 2)];
    let mut bad = failing_desk(&rt, rt.alloc(), &calls);
    expect_bad(&rt, rt.alloc(), &mut bad);
    drop(bad);
}

// Fails unless what was written last to a real file is read, within the limit.
fn expect_last(rt: &impl Abort, alloc: Global, desk: &mut HostDesk<HostRuntime>, name: &str) {
    let first = write_whole(desk, name, b"first, and longer");
    expect_that(rt, first == Ok(()), b"first");
    let second = write_whole(desk, name, b"second");
    expect_that(rt, second == Ok(()), b"second");
    expect_text(rt, read_whole(alloc, desk, name, 6), b"second");
    let stop = read_whole(alloc, desk, name, 5).err();
    expect_that(rt, stop == Some(ReadStop::TooLong { limit: 5 }), b"limit");
}

#[test]
fn real_files_are_written_and_read(rt: HostRuntime) {
    let name = "ice_api_test_file";
    let mut desk = HostDesk::new(rt);
    expect_last(&rt, rt.alloc(), &mut desk, name);
    expect_that(&rt, fs::remove_file(&rt, name).is_ok(), b"removed");
    let stop = read_whole(rt.alloc(), &mut desk, name, 6).err();
    expect_that(&rt, stop == Some(ReadStop::Failed), b"absent");
    expect_that(&rt, desk.make("no/such/folder").is_err(), b"folder");
    expect_that(&rt, desk.say(b"said\n") == Ok(5), b"said");
    drop(desk);
}

// Fails unless so many passes were made at a gate, and workers met there or did not.
fn expect_passed(rt: &impl Abort, gate: &MeetGate, met: bool, passes: u64) {
    expect_that(rt, gate.met() == met, b"met");
    expect_that(rt, gate.passes() == passes, b"passes");
}

#[test]
fn two_threads_meet_and_one_meets_nobody(rt: HostRuntime) {
    OpenGate.pass(0, NetNo(0));
    let gate = MeetGate::new();
    thread::join(&rt, || gate.pass(0, NetNo(0)), || gate.pass(1, NetNo(1)));
    gate.pass(1, NetNo(2));
    expect_passed(&rt, &gate, true, 3);
    let lone = MeetGate::new();
    lone.pass(0, NetNo(0));
    lone.pass(1, NetNo(1));
    expect_passed(&rt, &lone, false, 2);
}
