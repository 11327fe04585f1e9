//! How a text is written whole.

ghost use Rattle.binfarce_tools.specs.ListWords.{outcome_of, Writes};
ghost use Rattle.binfarce_tools.specs.Writing.{Fails};

use crate::list::{ListError, Sink};

/// Writes the bytes in as many calls as the sink needs.
///
/// # Errors
///
/// `Write` if a write of the sink failed: a beginning of the bytes was taken.
pub fn write_whole<S: Sink>(out: &mut S, bytes: &[u8]) -> Result<(), ListError>
    ensures takes { Writes (S.taken out.old) (S.taken out.new) bytes.now result }
    ensures fails { Fails (S.has_failed out.old) (S.has_failed out.new) (outcome_of result) }
{
    let mut at = 0;
    while at < bytes.len() {
        match out.write(&bytes[at..]) {
            None => return Err(ListError::Write),
            Some(n) => at += n,
        }
    }
    Ok(())
}
