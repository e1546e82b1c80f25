//! Lines, words, numbers and names of texts.
ghost use Rattle.std.specs.Prelude.{◌≡◌, bytes_eq};
ghost use Rattle.std.specs.List.{list_any};
ghost use Rattle.ice_base.specs.Text.{lines, numbered, words, begins_with};

use crate::claims::expect_that;
use ice_base::{begins_with, lines_of, name_of, no_words, number_of, plain_words_of, words_of};
use std::alloc::Global;
use std::process::Abort;

// Texts with their lines.
const LINES: [(&[u8], &[&[u8]]); 6] = [
    (b"", &[]),
    (b"a", &[b"a"]),
    (b"a\n", &[b"a"]),
    (b"\n\n", &[b"", b""]),
    (b"a\n\nb c", &[b"a", b"", b"b c"]),
    (b"a\r\nb\r", &[b"a\r", b"b\r"]),
];

// Texts with their words.
const WORDS: [(&[u8], &[&[u8]]); 5] = [
    (b"", &[]),
    (b" \t\r\n ", &[]),
    (b"  ab\tc\r\nd ", &[b"ab", b"c", b"d"]),
    (b"a\x0cb\x0bc\x80 d\x00", &[b"a\x0cb\x0bc\x80", b"d\x00"]),
    (b"a # b", &[b"a", b"#", b"b"]),
];

// Lines with the words before their comments.
const PLAIN_WORDS: [(&[u8], &[&[u8]]); 4] = [
    (b"a b", &[b"a", b"b"]),
    (b"# a b", &[]),
    (b"a #b c", &[b"a"]),
    (b"a b#c d", &[b"a", b"b#c", b"d"]),
];

// Fails unless the text has these lines, numbered from 1.
fn expect_lines(rt: &impl Abort, text: &[u8], expected: &[&[u8]]) {
    let mut found = lines_of(text);
    let mut number: u32 = 0;
    for bytes in expected {
        number = number.saturating_add(1);
        let line = found.next().expect(rt, "a line more");
        expect_that(rt, line.number == number, text);
        expect_that(rt, line.text == *bytes, text);
    }
    expect_that(rt, found.next().is_none(), text);
}

// Fails unless the text has these words.
fn expect_words(rt: &impl Abort, text: &[u8], expected: &[&[u8]]) {
    let mut found = words_of(text);
    for word in expected {
        expect_that(rt, found.next() == Some(*word), text);
    }
    expect_that(rt, found.next().is_none(), text);
}

fn texts_have_lines_and_words(rt: &impl Abort) {
    for (text, lines) in &LINES {
        expect_lines(rt, text, lines);
    }
    for (text, words) in &WORDS {
        expect_words(rt, text, words);
    }
    expect_that(rt, no_words().next().is_none(), b"no words");
}

// Fails unless the line has these words before its comment, and no words behind its end.
fn expect_plain_words(rt: &impl Abort, line: &[u8], expected: &[&[u8]]) {
    let mut found = plain_words_of(line);
    for word in expected {
        expect_that(rt, found.next() == Some(*word), line);
    }
    expect_that(rt, found.next().is_none(), line);
    expect_that(rt, found.next().is_none(), line);
}

fn comments_run_to_the_end_of_the_line(rt: &impl Abort) {
    for (line, words) in &PLAIN_WORDS {
        expect_plain_words(rt, line, words);
    }
}

// Words with the numbers that they are.
const NUMBERS: [(&[u8], Option<u32>); 12] = [
    (b"0", Some(0)),
    (b"1070", Some(1070)),
    (b"0000000001", Some(1)),
    (b"4294967295", Some(4_294_967_295)),
    (b"", None),
    (b"4294967296", None),
    (b"9999999999", None),
    (b"00000000001", None),
    (b"12a", None),
    (b"+1", None),
    (b"-1", None),
    (b" 1", None),
];

fn numbers_have_one_to_ten_digits(rt: &impl Abort) {
    for (word, number) in &NUMBERS {
        expect_that(rt, number_of(word) == *number, word);
    }
}

fn names_are_copies(rt: &impl Abort, alloc: Global) {
    let name = name_of(alloc, b"led[0]").expect(rt, "memory");
    let empty = name_of(alloc, b"").expect(rt, "memory");
    expect_that(rt, name.as_bytes() == b"led[0]".as_slice(), b"led[0]");
    expect_that(rt, empty.as_bytes() == b"".as_slice(), b"");
    expect_that(rt, name != empty, b"equal");
    expect_that(rt, empty < name, b"less");
}

// Whether a line begins with a dot: a caller's loop over lines, whose invariant speaks of the lines that are left.
fn has_heading(text: &[u8]) -> bool
    ensures { result ≡ list_any (λ line. begins_with 46 line.1) (numbered 1 (lines text.now)) }
{
    for line in lines_of(text) {
        if begins_with(b'.', line.text) {
            return true;
        }
    }
    false
}

// Whether the word is in the text: a caller's loop over words, whose invariant speaks of the words that are left.
fn has_word(text: &[u8], word: &[u8]) -> bool
    ensures { result ≡ list_any (bytes_eq word.now) (words text.now) }
{
    for found in words_of(text) {
        if word == found {
            return true;
        }
    }
    false
}

fn loops_go_over_what_is_left(rt: &impl Abort) {
    let text = b"a b\n.end\n";
    expect_that(rt, has_heading(text), text);
    expect_that(rt, has_word(text, b"b"), b"b");
    expect_that(rt, !has_word(text, b"end"), b"end");
    expect_that(rt, !has_heading(b" .end"), b" .end");
}

#[test]
fn words_numbers_and_names(rt: HostRuntime) {
    texts_have_lines_and_words(&rt);
    comments_run_to_the_end_of_the_line(&rt);
    numbers_have_one_to_ten_digits(&rt);
    names_are_copies(&rt, rt.alloc());
    loops_go_over_what_is_left(&rt);
}
