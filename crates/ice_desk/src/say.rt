//! Saying a whole text over any desk.
ghost use Rattle.std.specs.Prelude.{◌≡◌};
ghost use Rattle.ice_desk.specs.Changes.{SameButSaying, SameTest};
ghost use Rattle.ice_desk.specs.Said.{IsTextSaid};

use crate::Desk;

/// Says a text. After a failed say nothing more is said.
///
/// # Errors
/// The number of the say that failed, from 1.
pub fn say_text<D: Desk>(desk: &mut D, text: &[u8]) -> Result<(), u64>
    ensures same { SameButSaying (D.seen desk.old) (D.seen desk.new) }
    ensures names_read { SameTest (D.may_read desk.old) (D.may_read desk.new) }
    ensures names_written { SameTest (D.may_write desk.old) (D.may_write desk.new) }
    ensures said { IsTextSaid (D.seen desk.old) (D.seen desk.new) text.now result }
{
    let mut at = 0;
    let mut says = 0u64;
    while at < text.len() {
        says += 1;
        match desk.say(&text[at..]) {
            Ok(count) => at += count,
            Err(_) => return Err(says),
        }
    }
    Ok(())
}
