//! How much is routed at most.

/// The wires of a graph whose wires have prices: up to this number.
pub const MOST_WIRES: u32 = 1_048_576;

/// The nets that are routed at a time: up to this number, so that as many hold one wire at most.
pub const MOST_NETS: u32 = 65_536;

/// The count of a wire at any moment of a round: up to this number, the nets on it at first and all that move.
pub const MOST_COUNT: u32 = 131_072;

/// The nets that hold a wire beside one: up to this number.
pub const MOST_OTHERS: u32 = 65_535;

/// The overuse of a wire, summed over all rounds before the last of 64: up to this number.
pub const MOST_HISTORY: u64 = 4_128_705;

/// Each of the two factors of a price: up to this number.
pub const MOST_FACTOR: u64 = 4_128_706;

/// The price of a wire: up to this number, the square of the greatest factor.
pub const MOST_PRICE: u64 = 17_046_213_234_436;

/// The rows of a walk that comes to no wire twice: up to this number.
pub const MOST_STEPS: u64 = 1_048_575;
