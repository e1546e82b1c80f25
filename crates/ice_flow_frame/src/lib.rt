//! The answers of the program with their causes: the statuses, and the line that each refusal says; and the frame of commands: files are
//! read, something is made of their texts, and it is said or written to files, with a row for each answer.
#![tactic(auto)]

mod bits_say;
mod cause;
mod end;
mod files;
mod giving;
mod making;
mod reading;
mod refusal;
mod say;
mod writing;

pub use cause::{Cause, Done, FileRole, no_arrangement, no_tallies, none_kept};
pub use end::{done, finish};
pub use files::{CommandFile, Texts, one_text, read_texts};
pub use giving::{Made, Refused, end_aloud, end_in_files, made_text};
pub use making::{Making, say_made, without_report};
pub use reading::MOST_BYTES;
pub use refusal::{
    asc_refusal, bits_refusal, blif_refusal, chip_refusal, net_refusal, pcf_refusal, pin_refusal,
    place_refusal,
};
pub use say::say_line;
