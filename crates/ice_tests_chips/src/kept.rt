//! How many bytes a reader keeps.
use crate::answers::counted;
use crate::claims::expect_that;
use ice_chip::ChipFault;
use ice_chip_read_pieces::ChipReader;
use std::alloc::Global;
use std::process::Abort;

// A piece, and how many bytes are kept behind it.
type Kept = (&'static [u8], usize);

const GOOD: [Kept; 7] = [
    (b".device 1k 2", 12),
    (b" 1 4\r", 17),
    (b"\n.pi", 3),
    (b"", 3),
    (b"ns tiny", 10),
    (b"\n\n", 0),
    (b".net", 4),
];

const FAULTY: [Kept; 4] = [(b"\nx", 1), (b"\nabc", 0), (b"de", 0), (b"\nfg", 0)];

// Fails unless so much is kept behind each piece.
fn expect_each(rt: &impl Abort, reader: &mut ChipReader, pieces: &[Kept]) {
    for (piece, kept) in pieces {
        expect_that(rt, reader.feed(piece).is_ok(), piece);
        expect_that(rt, reader.kept() == *kept, piece);
    }
}

// Fails unless so much is kept behind each piece, and this is the fault of all.
fn expect_kept(rt: &impl Abort, alloc: Global, pieces: &[Kept], fault: ChipFault) {
    let mut reader = ChipReader::new(alloc).expect(rt, "memory");
    expect_each(rt, &mut reader, pieces);
    expect_that(rt, counted(reader.finish()) == Err(fault), b"fault");
}

#[test]
fn the_unread_rest_of_a_line_is_kept(rt: HostRuntime) {
    let alloc = rt.alloc();
    expect_kept(&rt, alloc, &GOOD, ChipFault::BadNumber { line: 4 });
    expect_kept(&rt, alloc, &FAULTY, ChipFault::NoDevice { line: 2 });
}
