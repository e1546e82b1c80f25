//! Formals of a RAM and their places.
ghost use Rattle.std.specs.Prelude.{◌≡◌, ◌<◌, ◌≤◌, ◌+◌, IfSome};
ghost use Rattle.ice_ram_words.specs.Words.{index_of, bus_place, clock_place, enable_place, address_place, word_place, place};

use crate::Edges;

/// How many inputs a RAM has: `RADDR[0]` to `[10]`, `WADDR[0]` to `[10]`, `MASK[0]` to `[15]`, `WDATA[0]` to `[15]`, RCLK, WCLK,
/// RE, WE, RCLKE and WCLKE.
pub const RAM_INPUTS: usize = 60;

/// How many places its formals have: the inputs, and then the outputs `RDATA[0]` to `[15]`.
pub const RAM_PLACES: usize = 76;

// The number in brackets, 0 to 19.
fn index(word: &[u8]) -> Option<usize>
    ensures { result ≡ index_of word.now }
{
    match word {
        [b'[', digit @ b'0'..=b'9', b']'] => Some(usize::from(*digit - b'0')),
        [b'[', b'1', digit @ b'0'..=b'9', b']'] => Some(10 + usize::from(*digit - b'0')),
        _ => None,
    }
}

// The place of a formal of a bus of so many, the first of which has this place.
fn bus(first: usize, count: usize, base: &[u8], name: &[u8]) -> Option<usize>
    requires { first + count ≤ 76 }
    ensures place { result ≡ bus_place first count base.now name.now }
    ensures few { IfSome result (λ place. place < 76) }
{
    let number = index(name.strip_prefix(base)?)?;
    if number >= count {
        return None;
    }
    Some(first + number)
}

// The place of a clock. That of one that falls is named with an N.
fn clock(edges: Edges, name: &[u8]) -> Option<usize>
    ensures place { result ≡ clock_place edges name.now }
    ensures few { IfSome result (λ place. place < 76) }
{
    let read = if edges.read_falls {
        b"RCLKN".as_slice()
    } else {
        b"RCLK".as_slice()
    };
    let write = if edges.write_falls {
        b"WCLKN".as_slice()
    } else {
        b"WCLK".as_slice()
    };
    if name == read {
        return Some(54);
    }
    if name == write {
        return Some(55);
    }
    None
}

// The place of an enable.
fn enable(name: &[u8]) -> Option<usize>
    ensures place { result ≡ enable_place name.now }
    ensures few { IfSome result (λ place. place < 76) }
{
    if name == b"RE".as_slice() {
        return Some(56);
    }
    if name == b"WE".as_slice() {
        return Some(57);
    }
    if name == b"RCLKE".as_slice() {
        return Some(58);
    }
    if name == b"WCLKE".as_slice() {
        return Some(59);
    }
    None
}

// The place of a formal of an address.
fn address(name: &[u8]) -> Option<usize>
    ensures place { result ≡ address_place name.now }
    ensures few { IfSome result (λ place. place < 76) }
{
    if let Some(place) = bus(0, 11, b"RADDR", name) {
        return Some(place);
    }
    bus(11, 11, b"WADDR", name)
}

// The place of a formal of a mask or of data.
fn word(name: &[u8]) -> Option<usize>
    ensures place { result ≡ word_place name.now }
    ensures few { IfSome result (λ place. place < 76) }
{
    if let Some(place) = bus(22, 16, b"MASK", name) {
        return Some(place);
    }
    if let Some(place) = bus(38, 16, b"WDATA", name) {
        return Some(place);
    }
    bus(60, 16, b"RDATA", name)
}

/// The place of a formal among the inputs and then the outputs of a RAM. None exactly where it has none of that name.
pub fn place(edges: Edges, name: &[u8]) -> Option<usize>
    ensures place { result ≡ place edges name.now }
    ensures few { IfSome result (λ place. place < 76) }
{
    if let Some(place) = address(name) {
        return Some(place);
    }
    if let Some(place) = word(name) {
        return Some(place);
    }
    if let Some(place) = clock(edges, name) {
        return Some(place);
    }
    enable(name)
}
