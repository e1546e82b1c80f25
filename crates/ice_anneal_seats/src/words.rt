//! Numbers that are drawn.

use rand_core::utils::NextWord;
use rand_pcg::Pcg32;

/// A number below m; where that is 0, it is 0.
pub fn below(words: &mut Pcg32, m: usize) -> usize {
    (u64::from(words.next_word()).wrapping_mul(m as u64) >> 32) as usize
}

/// What a try that is kept may cost, in parts of 256 of a tile: a random part of the heat, which is in the same parts.
pub fn spare(heat: u64, words: &mut Pcg32) -> i64 {
    (heat.wrapping_mul(u64::from(words.next_word())) >> 32).cast_signed()
}
