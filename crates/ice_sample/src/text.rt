//! Pieces of lines.
ghost use Rattle.std.specs.Prelude.{◌≡◌, ◌++◌, ◌∷◌, [], ◌≤◌, ◌<◌, OnOk, decimal};
ghost use Rattle.ice_base.specs.Lines.{text_of_lines};
ghost use Rattle.ice_sample.specs.Lines.{number_words, place_words, placed_words, binary};

use ice_base::{NoMemory, TileAt};
use itoa::Buffer;

/// Writes a line.
pub fn put_line(text: &mut Vec<u8>, line: &[u8]) -> Result<(), NoMemory>
    ensures { OnOk result (text.new.items ≡ text.old.items ++ text_of_lines (line.now ∷ [])) }
{
    text.extend_from_slice(line)?;
    text.push(b'\n')?;
    Ok(())
}

/// Ends a line.
pub fn end_line(text: &mut Vec<u8>) -> Result<(), NoMemory>
    ensures { OnOk result (text.new.items ≡ text.old.items ++ 10 ∷ []) }
{
    text.push(b'\n')?;
    Ok(())
}

/// Writes a number in decimal digits.
pub fn put_number(text: &mut Vec<u8>, number: u64) -> Result<(), NoMemory>
    ensures { OnOk result (text.new.items ≡ text.old.items ++ decimal number) }
{
    let mut buffer = Buffer::new();
    text.extend_from_slice(buffer.format(number).as_bytes())?;
    Ok(())
}

/// Writes a number behind a word.
pub fn put_worded(text: &mut Vec<u8>, word: &[u8], number: u64) -> Result<(), NoMemory>
    ensures { OnOk result (text.new.items ≡ text.old.items ++ (word.now ++ decimal number)) }
{
    text.extend_from_slice(word)?;
    put_number(text, number)
}

/// Writes two numbers.
pub fn put_numbers(text: &mut Vec<u8>, first: u64, second: u64) -> Result<(), NoMemory>
    ensures { OnOk result (text.new.items ≡ text.old.items ++ number_words first second) }
{
    put_number(text, first)?;
    put_worded(text, b" ", second)
}

/// Writes the column and the row of a place.
pub fn put_place(text: &mut Vec<u8>, at: TileAt) -> Result<(), NoMemory>
    ensures { OnOk result (text.new.items ≡ text.old.items ++ place_words at) }
{
    put_numbers(text, u64::from(at.x), u64::from(at.y))
}

/// Writes a place and a number there.
pub fn put_placed(text: &mut Vec<u8>, at: TileAt, number: u64) -> Result<(), NoMemory>
    ensures { OnOk result (text.new.items ≡ text.old.items ++ placed_words at number) }
{
    put_place(text, at)?;
    put_worded(text, b" ", number)
}

/// Writes the lowest digits of a number in binary, so many of them and at most 32, the greatest first.
pub fn put_binary(text: &mut Vec<u8>, digits: u16, number: u64) -> Result<(), NoMemory>
    requires { digits ≤ 32 }
    ensures { OnOk result (text.new.items ≡ text.old.items ++ binary digits number) }
{
    let mut left = digits;
    while left > 0 {
        left -= 1;
        text.push(b'0' + ((number >> left) % 2) as u8)?;
    }
    Ok(())
}
