//! Commands that read a chip database: it is handed on piece by piece to its reader, and only the texts of the other files are held whole.
#![tactic(auto)]

mod configured;
mod making;
mod texts;

pub use configured::ChipMaking;
pub use making::{say_made_on_chip, write_made_on_chip};
pub use texts::{ChipTexts, read_chip_and_texts};
