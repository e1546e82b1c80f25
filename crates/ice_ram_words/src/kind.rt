//! Kinds of RAMs, and names of their contents.
ghost use Rattle.std.specs.Prelude.{◌≡◌, ◌<◌, IfSome};
ghost use Rattle.ice_ram_words.specs.Words.{edges_of, row_of};

/// Which clocks of a RAM act as they fall.
#[derive(Clone, Copy, Debug, PartialEq, Eq)]
pub struct Edges {
    /// Whether the port that reads acts at the falling edge of its clock.
    pub read_falls: bool,
    /// Whether the port that writes acts at the falling edge of its clock.
    pub write_falls: bool,
}

/// The edges of the kind of RAM that a word names. None exactly where it names none.
pub fn edges_named(word: &[u8]) -> Option<Edges>
    ensures { result ≡ edges_of word.now }
{
    if word == b"SB_RAM40_4K".as_slice() {
        return Some(Edges {
            read_falls: false,
            write_falls: false,
        });
    }
    if word == b"SB_RAM40_4KNR".as_slice() {
        return Some(Edges {
            read_falls: true,
            write_falls: false,
        });
    }
    if word == b"SB_RAM40_4KNW".as_slice() {
        return Some(Edges {
            read_falls: false,
            write_falls: true,
        });
    }
    if word == b"SB_RAM40_4KNRNW".as_slice() {
        return Some(Edges {
            read_falls: true,
            write_falls: true,
        });
    }
    None
}

/// The row of sixteen words whose contents a parameter says, by its name: `INIT_0` to `INIT_F`.
pub fn row_named(name: &[u8]) -> Option<u8>
    ensures row { result ≡ row_of name.now }
    ensures few { IfSome result (λ row. row < 16) }
{
    match name {
        [b'I', b'N', b'I', b'T', b'_', digit @ b'0'..=b'9'] => Some(*digit - b'0'),
        [b'I', b'N', b'I', b'T', b'_', digit @ b'A'..=b'F'] => Some(*digit - b'A' + 10),
        _ => None,
    }
}
