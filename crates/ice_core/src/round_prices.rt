//! What the prices of a round are made of.

/// What all nets of a round share of their prices: the round, the history, and how many nets hold each wire as it begins.
#[derive(Drop)]
pub struct RoundPrices {
    /// The number of the round, from 1 to 64.
    pub round: u32,
    /// How far each wire was overused in the rounds before.
    pub history: Vec<u64>,
    /// How many nets hold each wire as the round begins.
    pub counts: Vec<u32>,
}
