//! Contents of RAMs.
ghost use Rattle.std.specs.Prelude.{◌≡◌, ◌<◌, length};
ghost use Rattle.ice_ram_read.specs.RamData.{digit_at, row_word, new_word, with_row};

// Whether bit n of contents is 1: the last digit is bit 0, and a digit that is missing is 0.
fn digit_at(digits: &[u8], n: usize) -> bool
    ensures { result ≡ digit_at digits.now n }
{
    if n >= digits.len() {
        return false;
    }
    digits[digits.len() - 1 - n] == b'1'
}

// Word i, by the contents of its row.
fn row_word(digits: &[u8], i: usize) -> [bool; 16]
    requires { i < 256 }
    ensures { result ≡ row_word digits.now i }
{
    let mut word = [false; 16];
    for bit in 0..16 {
        word[bit] = digit_at(digits, 16 * (i % 16) + bit);
    }
    word
}

// Word i, after a row of sixteen words has these contents.
fn new_word(words: &[[bool; 16]], row: usize, digits: &[u8], i: usize) -> [bool; 16]
    requires many { length words.now ≡ 256 }
    requires word { i < 256 }
    ensures { result ≡ new_word words.now row digits.now i }
{
    if i / 16 == row {
        row_word(digits, i)
    } else {
        words[i]
    }
}

/// Gives a row of sixteen words these contents.
pub(crate) fn set_row(words: &mut [[bool; 16]], row: usize, digits: &[u8])
    requires { length words.old ≡ 256 }
    ensures words { words.new ≡ with_row words.old row digits.now }
    ensures many { length words.new ≡ 256 }
{
    for i in 0..256 {
        words[i] = new_word(words, row, digits, i);
    }
}
