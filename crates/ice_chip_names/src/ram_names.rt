//! The names of the wires of a block RAM. Each has a number, and stands in one of the RAM's two tiles.
ghost use Rattle.std.specs.Prelude.{◌≡◌, ◌<◌, ◌≤◌, [], length, map, slice_index_or, IfSome};
ghost use Rattle.ice_chip_names.specs.RamNames.{ram_name, place_among, ram_number, is_read_out, is_lower, is_clock_enable};

/// How many wires a block RAM has.
pub const RAM_WIRES: u8 = 76;

// The names by the numbers of the wires.
const RAM_NAMES: [&[u8]; RAM_WIRES as usize] = [
    b"ram/RDATA_0",
    b"ram/RDATA_1",
    b"ram/RDATA_2",
    b"ram/RDATA_3",
    b"ram/RDATA_4",
    b"ram/RDATA_5",
    b"ram/RDATA_6",
    b"ram/RDATA_7",
    b"ram/RDATA_8",
    b"ram/RDATA_9",
    b"ram/RDATA_10",
    b"ram/RDATA_11",
    b"ram/RDATA_12",
    b"ram/RDATA_13",
    b"ram/RDATA_14",
    b"ram/RDATA_15",
    b"ram/RADDR_0",
    b"ram/RADDR_1",
    b"ram/RADDR_2",
    b"ram/RADDR_3",
    b"ram/RADDR_4",
    b"ram/RADDR_5",
    b"ram/RADDR_6",
    b"ram/RADDR_7",
    b"ram/RADDR_8",
    b"ram/RADDR_9",
    b"ram/RADDR_10",
    b"ram/WADDR_0",
    b"ram/WADDR_1",
    b"ram/WADDR_2",
    b"ram/WADDR_3",
    b"ram/WADDR_4",
    b"ram/WADDR_5",
    b"ram/WADDR_6",
    b"ram/WADDR_7",
    b"ram/WADDR_8",
    b"ram/WADDR_9",
    b"ram/WADDR_10",
    b"ram/MASK_0",
    b"ram/MASK_1",
    b"ram/MASK_2",
    b"ram/MASK_3",
    b"ram/MASK_4",
    b"ram/MASK_5",
    b"ram/MASK_6",
    b"ram/MASK_7",
    b"ram/MASK_8",
    b"ram/MASK_9",
    b"ram/MASK_10",
    b"ram/MASK_11",
    b"ram/MASK_12",
    b"ram/MASK_13",
    b"ram/MASK_14",
    b"ram/MASK_15",
    b"ram/WDATA_0",
    b"ram/WDATA_1",
    b"ram/WDATA_2",
    b"ram/WDATA_3",
    b"ram/WDATA_4",
    b"ram/WDATA_5",
    b"ram/WDATA_6",
    b"ram/WDATA_7",
    b"ram/WDATA_8",
    b"ram/WDATA_9",
    b"ram/WDATA_10",
    b"ram/WDATA_11",
    b"ram/WDATA_12",
    b"ram/WDATA_13",
    b"ram/WDATA_14",
    b"ram/WDATA_15",
    b"ram/RCLK",
    b"ram/WCLK",
    b"ram/RE",
    b"ram/WE",
    b"ram/RCLKE",
    b"ram/WCLKE",
];

// The name of this number among those.
fn name_at(names: &[&'static [u8]], wire: u8) -> &'static [u8]
    requires { wire < length names.now }
    ensures { result.now ≡ slice_index_or (map (λ name. name.now) names.now) wire [] }
{
    names[usize::from(wire)]
}

/// The name of the wire of this number: `ram/RDATA_0` to `ram/RDATA_15`, `ram/RADDR_0` to `ram/RADDR_10`, `ram/WADDR_0` to
/// `ram/WADDR_10`, `ram/MASK_0` to `ram/MASK_15`, `ram/WDATA_0` to `ram/WDATA_15`, `ram/RCLK`, `ram/WCLK`, `ram/RE`, `ram/WE`,
/// `ram/RCLKE` and `ram/WCLKE`.
pub fn ram_name(wire: u8) -> &'static [u8]
    requires { wire < 76 }
    ensures { result.now ≡ ram_name wire }
{
    name_at(&RAM_NAMES, wire)
}

// The number of a name among those.
fn place_among(names: &[&[u8]], name: &[u8]) -> Option<u8>
    requires { length names.now ≤ 255 }
    ensures { result ≡ place_among name.now 0 (map (λ known. known.now) names.now) }
{
    for (place, known) in names.iter().enumerate() {
        if *known == name {
            return Some(place as u8);
        }
    }
    None
}

/// The number of the wire that has the name, or None exactly where a block RAM has no wire of that name.
pub fn ram_number(name: &[u8]) -> Option<u8>
    ensures number { result ≡ ram_number name.now }
    ensures few { IfSome result (λ wire. wire < 76) }
{
    place_among(&RAM_NAMES, name)
}

/// Whether the wire is a bit of what is read, 0 to 15. Such a wire leads out of the RAM, and all others lead into it.
pub fn is_read_out(wire: u8) -> bool
    ensures { result ≡ is_read_out wire }
{
    wire < 16
}

/// Whether the wire stands in the lower tile. All others stand in the upper one.
pub fn is_lower(wire: u8) -> bool
    ensures { result ≡ is_lower wire }
{
    wire < 8
        || (27 <= wire && wire < 46)
        || (54 <= wire && wire < 62)
        || wire == 71
        || wire == 73
        || wire == 75
}

/// Whether the wire is the enable of a port's clock, which reads 1 where nothing drives it.
pub fn is_clock_enable(wire: u8) -> bool
    ensures { result ≡ is_clock_enable wire }
{
    wire == 74 || wire == 75
}
