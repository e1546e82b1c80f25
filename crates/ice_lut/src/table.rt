//! Tables of four inputs.
ghost use Rattle.std.specs.Prelude.{◌≡◌, ℕ, ◌-◌, ◌<◌, Bool, false, List, [], ◌∷◌, length, map, replicate, slice_set, slice_index_or};
ghost use Rattle.std.specs.List.{range_with_len};
ghost use Rattle.ice_net.specs.Meaning.{number_of, table_bit};
ghost use Rattle.ice_lut.specs.Tables.{levels_of, level_at, levels_from, with_constant, inputs_of, passing, permuted, rewired, table_places, other_places};

// A digit of a number, the lowest at place 0.
fn digit(number: u16, place: u16) -> bool
    requires { place < 16 }
    ensures { result ≡ table_bit number place }
{
    (number >> place) & 1 == 1
}

// The number that the levels of four inputs make, the first the lowest digit.
fn number_of(inputs: [bool; 4]) -> u16
    ensures number { result ≡ number_of inputs }
    ensures few { result < 16 }
{
    let [first, second, third, fourth] = inputs;
    u16::from(first) + 2 * (u16::from(second) + 2 * (u16::from(third) + 2 * u16::from(fourth)))
}

/// What a table gives for the levels of its inputs.
pub fn value(table: u16, inputs: [bool; 4]) -> bool
    ensures { result ≡ table_bit table (number_of inputs) }
{
    digit(table, number_of(inputs))
}

// The levels of the four inputs whose number this is.
fn levels_of(number: u16) -> [bool; 4]
    ensures { result ≡ levels_of number }
{
    [
        digit(number, 0),
        digit(number, 1),
        digit(number, 2),
        digit(number, 3),
    ]
}

// The table with these entries.
fn table_with(entries: &[bool; 16]) -> u16
    ensures { result ≡ number_of entries.now }
{
    let mut table = 0;
    for j in (0..16).rev() {
        let bit = u16::from(entries[j]);
        table = 2 * table + bit;
    }
    table
}

/// The table that gives for every input what `table` gives with that input at the level.
pub fn with_constant(table: u16, input: u8, level: bool) -> u16
    requires { input < 4 }
    ensures table { result ≡ with_constant table input level }
    ensures gives { (xs : List Bool) → length xs ≡ 4
        → table_bit result (number_of xs) ≡ table_bit table (number_of (slice_set xs input level)) }
{
    let mut entries = [false; 16];
    for j in 0..16 {
        let mut levels = levels_of(j);
        levels[usize::from(input)] = level;
        entries[usize::from(j)] = value(table, levels);
    }
    table_with(&entries)
}

// The level of an input among four, and 0 where there is none.
fn level_at(levels: [bool; 4], input: Option<u8>) -> bool
    ensures { result ≡ level_at levels input }
{
    match input {
        Some(input) if input < 4 => levels[usize::from(input)],
        _ => false,
    }
}

// The levels of four inputs that are taken from others.
fn levels_from(levels: [bool; 4], from: [Option<u8>; 4]) -> [bool; 4]
    ensures { result ≡ levels_from from levels }
{
    let [first, second, third, fourth] = from;
    [
        level_at(levels, first),
        level_at(levels, second),
        level_at(levels, third),
        level_at(levels, fourth),
    ]
}

/// The table that gives for every input what `table` gives when its input k is the new input `from[k]`, or 0 where
/// that is None.
pub fn rewired(table: u16, from: [Option<u8>; 4]) -> u16
    ensures table { result ≡ rewired table from }
    ensures gives { (xs : List Bool) → length xs ≡ 4
        → table_bit result (number_of xs) ≡ table_bit table (number_of (levels_from from xs)) }
{
    let mut entries = [false; 16];
    for j in 0..16 {
        entries[usize::from(j)] = value(table, levels_from(levels_of(j), from));
    }
    table_with(&entries)
}

// The inputs of these numbers.
fn inputs_of(order: [u8; 4]) -> [Option<u8>; 4]
    ensures { result ≡ inputs_of order }
{
    let [first, second, third, fourth] = order;
    [Some(first), Some(second), Some(third), Some(fourth)]
}

/// The table of the same function with its inputs in another order: input `order[k]` of the new table is input k of the
/// old one.
pub fn permuted(table: u16, order: [u8; 4]) -> u16
    ensures table { result ≡ permuted table order }
    ensures gives { (xs : List Bool) → length xs ≡ 4
        → table_bit result (number_of xs)
        ≡ table_bit table (number_of (map (λ k. slice_index_or xs k false) order)) }
{
    rewired(table, inputs_of(order))
}

/// The table that gives the other level for every input.
pub fn complement(table: u16) -> u16
    ensures { result ≡ 65535 - table }
{
    u16::MAX - table
}

/// The table that gives the level of that input.
pub fn passing(input: u8) -> u16
    requires { input < 4 }
    ensures table { result ≡ passing input }
    ensures gives { (xs : List Bool) → length xs ≡ 4
        → table_bit result (number_of xs) ≡ slice_index_or xs input false }
{
    match input {
        0 => 0xaaaa,
        1 => 0xcccc,
        2 => 0xf0f0,
        _ => 0xff00,
    }
}

// Where each entry of a table stands among the bits of a logic cell.
const ENTRY_PLACES: [u8; 16] = [4, 14, 15, 5, 6, 16, 17, 7, 3, 13, 12, 2, 1, 11, 10, 0];

/// Where an entry of a table stands among the bits of a logic cell.
pub fn entry_place(entry: u8) -> u8
    requires { entry < 16 }
    ensures { result ≡ slice_index_or table_places entry 0 }
{
    ENTRY_PLACES[usize::from(entry)]
}

/// The bits of a logic cell that write a table, and that enable neither a carry nor a flip-flop.
pub fn bits_of(table: u16) -> [bool; 20]
    ensures entries { map (λ place. slice_index_or result place false) table_places
        ≡ map (table_bit table) (range_with_len 0 16) }
    ensures others { map (λ place. slice_index_or result place false) other_places
        ≡ replicate 4 false }
{
    [
        digit(table, 15),
        digit(table, 12),
        digit(table, 11),
        digit(table, 8),
        digit(table, 0),
        digit(table, 3),
        digit(table, 4),
        digit(table, 7),
        false,
        false,
        digit(table, 14),
        digit(table, 13),
        digit(table, 10),
        digit(table, 9),
        digit(table, 1),
        digit(table, 2),
        digit(table, 5),
        digit(table, 6),
        false,
        false,
    ]
}
