//! What is wrong with a text of delays.

use thiserror::Error;

/// Why a text has no delays.
#[derive(Clone, Copy, Debug, PartialEq, Eq, Error)]
pub enum DelayFault {
    /// The line's words before its comment aren't one of the seven words, which no line before it has, and a number of at most 1,000,000;
    /// or all lines are well, and one of the seven words is missing.
    #[error("line {line}: not a word of its own and a delay")]
    BadLine {
        /// The number of the line, from 1; every line beyond number 4,294,967,295 has that number too. It is 0 where a word is missing.
        line: u32,
    },
}
