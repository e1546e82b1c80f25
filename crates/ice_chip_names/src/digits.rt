//! Names with a number in them, which is one digit long.
ghost use Rattle.std.specs.Prelude.{◌≡◌, option_map};
ghost use Rattle.ice_chip_names.specs.Names.{digit, number_of_digit, behind, lone_number, number_behind};
ghost use Rattle.ice_chip_names.specs.NameReaders.{leading_number, number_within};

/// The digit of a number, and of a larger one its last digit.
pub fn digit(number: u8) -> u8
    ensures { result ≡ digit number }
{
    b'0' + number % 10
}

// The number of a digit that is below the limit.
fn number_of(limit: u8, digit: u8) -> Option<u8>
    ensures { result ≡ number_of_digit limit digit }
{
    if digit >= b'0' && digit - b'0' < limit {
        return Some(digit - b'0');
    }
    None
}

// The number of a text of one digit.
fn lone_number(limit: u8, text: &[u8]) -> Option<u8>
    ensures { result ≡ lone_number limit text.now }
{
    match text {
        [digit] => number_of(limit, *digit),
        _ => None,
    }
}

// The number of the digit that a text begins with, and what stands behind it.
fn leading_number(limit: u8, text: &[u8]) -> Option<(u8, &[u8])>
    ensures { option_map (λ found. (found.0, found.1.now)) result ≡ leading_number limit text.now }
{
    match text {
        [digit, rest @ ..] => match number_of(limit, *digit) {
            Some(number) => Some((number, rest)),
            None => None,
        },
        _ => None,
    }
}

// What stands behind a prefix.
#[tactic(auto, using(crate::proofs::Prefixes::behind_is))]
fn behind<'a>(prefix: &[u8], name: &'a [u8]) -> Option<&'a [u8]>
    ensures { option_map (λ rest. rest.now) result ≡ behind prefix.now name.now }
{
    name.strip_prefix(prefix)
}

/// The number below the limit of which a name is made, that is a prefix and one digit; None exactly where it is no such name.
pub fn number_behind(limit: u8, prefix: &[u8], name: &[u8]) -> Option<u8>
    ensures { result ≡ number_behind limit prefix.now name.now }
{
    match behind(prefix, name) {
        Some(rest) => lone_number(limit, rest),
        None => None,
    }
}

/// The number below the limit with whose digit a name goes on behind a prefix, and what stands behind the digit; None
/// exactly where it does not go on so.
pub fn number_within<'a>(limit: u8, prefix: &[u8], name: &'a [u8]) -> Option<(u8, &'a [u8])>
    ensures { option_map (λ found. (found.0, found.1.now)) result
        ≡ number_within limit prefix.now name.now }
{
    match behind(prefix, name) {
        Some(rest) => leading_number(limit, rest),
        None => None,
    }
}
