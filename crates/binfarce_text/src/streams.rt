//! Streams of bytes that are read in parts, and passed on.

ghost use Rattle.std.specs.Prelude.{◌≡◌, ◌++◌, ◌<◌, [], Bool, true, false, ℕ, List, Option, Some, length, OnOk};
ghost use Rattle.binfarce_text.specs.Streams.{Fails, Streams};
ghost use Rattle.binfarce_text.specs.machine.Passing.{BreaksOff, BreaksOffDone, Ends, Goes, Passes, PassesAll, Steps, WritesAll};

use std::alloc::{AllocError, Global};
use std::error::Error;
use std::fmt;
use std::io::{ErrorKind, Read};

// How many bytes are taken at a time: what they make is in memory at once.
const STEP: usize = 512;

// An output of so many bytes is written before more is taken.
const LONG: usize = 1 << 16;

/// Why a stream was not passed to its end.
#[derive(Debug, Clone, Copy, PartialEq, Drop)]
pub enum StreamError {
    /// The reader failed.
    Read,
    /// A write failed.
    Write,
    /// An allocation failed.
    OutOfMemory,
}

impl fmt::Display for StreamError {
    ghost use Rattle.binfarce_text.specs.Streams.{stream_words};

    ghost output = { λ e. Some (stream_words e) };

    fn fmt<W: fmt::Write>(&self, f: &mut fmt::Formatter<W>) -> fmt::Result {
        match self {
            StreamError::Read => write!(f, "read failed"),
            StreamError::Write => write!(f, "write failed"),
            StreamError::OutOfMemory => write!(f, "out of memory"),
        }
    }
}

impl Error for StreamError {}

impl From<AllocError> for StreamError {
    ghost use Rattle.binfarce_text.specs.declared.streams.StreamError.TheVariants.{OutOfMemory};

    ghost from_gives = { λ _ e. e ≡ OutOfMemory };

    fn from(_: AllocError) -> Self {
        StreamError::OutOfMemory
    }
}

/// Takes a text in parts, makes an output for it, and writes that to `O`.
pub trait Pass<O> {
    // From the first value on, it has taken this text, and made this output.
    ghost Holds: { Self → Self → (text made : List ℕ) → Type 0 };

    // The output for the text is complete: for one that ended, or for one whose reader failed.
    ghost IsDone: { Self → Self → (ended : Bool) → (text made : List ℕ) → Type 0 };

    // The output for the text may break off here.
    ghost MayBreakOff: { Self → (text made : List ℕ) → Type 0 };

    // The bytes that were written, where they are known.
    ghost taken: { O → Option (List ℕ) };

    // A write has failed, if that is known; or else the same whatever fails.
    ghost has_failed: { O → Bool };

    /// Takes the next part, and appends the output so far to `out`. Don't go on after an error.
    fn take(&mut self, part: &[u8], out: &mut Vec<u8>) -> Result<(), AllocError>
        ensures makes { OnOk result
            ((more : List ℕ) × Goes Holds self.old self.new part.now more × (out.new.items ≡ out.old.items ++ more)) }
        ensures breaks_off { BreaksOff Holds MayBreakOff };

    /// Finishes a text that ended, or breaks off one whose reader failed (`ended` is false), and appends the remaining
    /// output to `out`.
    fn end(&mut self, ended: bool, out: &mut Vec<u8>) -> Result<(), AllocError>
        ensures makes { OnOk result
            ((more : List ℕ) × Ends Holds IsDone self.old self.new ended more
            × (out.new.items ≡ out.old.items ++ more)) }
        ensures breaks_off { BreaksOff Holds MayBreakOff }
        ensures done { BreaksOffDone IsDone MayBreakOff };

    /// Writes the bytes in as many calls as needed.
    fn write(output: &mut O, bytes: &[u8]) -> Result<(), StreamError>
        ensures writes { WritesAll (taken output.old) (taken output.new) bytes.now result }
        ensures fails { Fails (has_failed output.old) (has_failed output.new) result };
}

/// Passes a stream: writes what the pass makes of all that the reader gives, of so many bytes at a time. The output for
/// each part is written before the next is read. A read that was interrupted is tried again.
///
/// # Errors
///
/// `Read` if the reader failed: what came before is passed. `Write` if a write failed, and `OutOfMemory` if an
/// allocation did: a beginning of the output was written.
pub fn pass_stream<R: Read, O, P: Pass<O>>(
    alloc: Global,
    pass: &mut P,
    size: usize,
    input: &mut R,
    output: &mut O,
) -> Result<(), StreamError>
    requires begins { P.Holds pass.old pass.old [] [] }
    requires breaks_off { P.MayBreakOff pass.old [] [] }
    requires some { 0 < size }
    ensures streams { Streams (λ _. P.IsDone pass.old pass.new true) (P.IsDone pass.old pass.new false)
        (P.MayBreakOff pass.old) (R.remaining input.old) (R.remaining input.new) (P.taken output.old)
        (P.taken output.new) result }
    ensures fails { Fails (P.has_failed output.old) (P.has_failed output.new) result }
{
    let mut chunk = vec![in alloc; 0; size]?;
    let mut out = Vec::new(alloc);
    let ended = pass_all(pass, chunk.as_mut_slice(), &mut out, input, output)?;
    out.clear();
    pass.end(ended, &mut out)?;
    P::write(output, out.as_slice())?;
    if ended {
        Ok(())
    } else {
        Err(StreamError::Read)
    }
}

// Passes all that the reader gives. Returns `false` if the reader failed.
fn pass_all<R: Read, O, P: Pass<O>>(
    pass: &mut P,
    chunk: &mut [u8],
    out: &mut Vec<u8>,
    input: &mut R,
    output: &mut O,
) -> Result<bool, StreamError>
    requires begins { P.Holds pass.old pass.old [] [] }
    requires room { 0 < length chunk.now }
    ensures passes { PassesAll (P.Holds pass.old pass.new) (P.MayBreakOff pass.old) (R.remaining input.old)
        (R.remaining input.new) (P.taken output.old) (P.taken output.new) result }
    ensures fails { Fails (P.has_failed output.old) (P.has_failed output.new) result }
{
    for _ in 0..u64::MAX {
        match input.read(chunk) {
            Ok(0) => return Ok(true),
            Ok(n) => pass_part(pass, &chunk[..n], out, output)?,
            Err(e) => {
                if e.kind() != ErrorKind::Interrupted {
                    return Ok(false);
                }
            }
        }
    }
    Ok(false)
}

// Passes the next part, a few bytes at a time.
fn pass_part<O, P: Pass<O>>(
    pass: &mut P,
    part: &[u8],
    out: &mut Vec<u8>,
    output: &mut O,
) -> Result<(), StreamError>
    ensures passes { Passes P.Holds P.MayBreakOff pass.old pass.new part.now
        (P.taken output.old) (P.taken output.new) result }
    ensures fails { Fails (P.has_failed output.old) (P.has_failed output.new) result }
{
    out.clear();
    let mut at = 0;
    while at < part.len() {
        let end = part.len().min(at + STEP);
        pass_step(pass, &part[at..end], end == part.len(), out, output)?;
        at = end;
    }
    Ok(())
}

// Takes the next bytes, and writes the output if these are the last ones or it is long; else it waits in `out`, if
// some may wait before.
fn pass_step<O, P: Pass<O>>(
    pass: &mut P,
    bytes: &[u8],
    are_last: bool,
    out: &mut Vec<u8>,
    output: &mut O,
) -> Result<(), StreamError>
    ensures steps { Steps P.Holds P.MayBreakOff pass.old pass.new bytes.now out.old.items out.new.items
        (P.taken output.old) (P.taken output.new) result }
    ensures ends { are_last ≡ true → OnOk result (out.new.items ≡ []) }
    ensures fails { Fails (P.has_failed output.old) (P.has_failed output.new) result }
{
    pass.take(bytes, out)?;
    if !are_last && out.len() < LONG {
        return Ok(());
    }
    P::write(output, out.as_slice())?;
    out.clear();
    Ok(())
}
