//! Numbers as words of a text.
ghost use Rattle.std.specs.Prelude.{◌≡◌, ◌^◌, ◌≤◌, ◌<◌, ◌&&◌, length, true, nat_lt, Some, None, IfSome, if◌then◌else◌};
ghost use Rattle.std.specs.Char.{is_ascii_digit};
ghost use Rattle.ice_base.specs.Text.{number_in, number_below, with_digit};

// The number that a number's digits and one more write, where that is a digit and the number fits.
fn appended(number: u32, digit: u8) -> Option<u32>
    ensures { result ≡ (if is_ascii_digit digit && nat_lt (with_digit number digit) (2 ^ 32)
        then Some (with_digit number digit) else None) }
{
    if !digit.is_ascii_digit() {
        return None;
    }
    u32::try_from(u64::from(number) * 10 + u64::from(digit - b'0')).ok()
}

// The number that the digits of a number of at most eight digits and one more write.
fn longer(number: u32, digit: u8) -> u32
    requires number { number < 100000000 }
    requires digit { is_ascii_digit digit ≡ true }
    ensures { result ≡ with_digit number digit }
{
    number * 10 + u32::from(digit - b'0')
}

// The value of a word of at most nine digits, which always fits.
fn short_number(word: &[u8]) -> Option<u32>
    requires some { 0 < length word.now }
    requires short { length word.now < 10 }
    ensures { result ≡ number_in word.now }
{
    let mut number = 0u32;
    for digit in word {
        if !digit.is_ascii_digit() {
            return None;
        }
        number = longer(number, *digit);
    }
    Some(number)
}

// The value of a word of ten digits or of another number of them, where it fits.
#[tactic(auto, using(crate::proofs::Digits::empty_word, crate::proofs::Digits::long_word, crate::proofs::Digits::digit_joins, crate::proofs::Digits::digit_stops, crate::proofs::Digits::digits_end))]
fn long_number(word: &[u8]) -> Option<u32>
    ensures { result ≡ number_in word.now }
{
    if word.is_empty() || word.len() > 10 {
        return None;
    }
    let mut number = 0;
    for (i, digit) in word.iter().enumerate() {
        number = appended(number, *digit)?;
    }
    Some(number)
}

/// The value of a word of one to ten decimal digits; leading zeros count as digits. None exactly where the word is
/// no such word or its value exceeds 4,294,967,295. It takes no memory.
pub fn number_of(word: &[u8]) -> Option<u32>
    ensures { result ≡ number_in word.now }
{
    if word.is_empty() || word.len() >= 10 {
        return long_number(word);
    }
    short_number(word)
}

/// The value of a word that is a number below a limit, and None for any other word.
pub fn number_below(limit: u32, word: &[u8]) -> Option<u32>
    ensures value { result ≡ number_below limit word.now }
    ensures below { IfSome result (λ number. number < limit) }
{
    number_of(word).filter(|number| *number < limit)
}
