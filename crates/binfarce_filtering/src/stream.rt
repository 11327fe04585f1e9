//! Filters a stream.

ghost use Rattle.std.specs.Prelude.{◌≡◌, true};
ghost use Rattle.binfarce_text.specs.Streams.{IsBeginningOf, Streams};
ghost use Rattle.binfarce_filtering.specs.Filter.{IsFiltered};

use crate::filter::TextFilter;
pub use binfarce_text::streams::StreamError;
use binfarce_text::streams::{Pass, pass_stream};
use std::alloc::{AllocError, Global};
use std::io::{ErrorKind, Read, Write};

// How many bytes are read at a time.
const CHUNK: usize = 1 << 16;

/// Filters a stream: writes what `filter` gives for all that the reader gives. The output for each part is written
/// before the next is read. `full` is as in `filter`.
///
/// Memory depends on the longest run that may be a name, and on the longest text of a name. A read that was interrupted
/// is tried again.
///
/// # Errors
///
/// `Read` if the reader failed: what came before is filtered, as if the stream ended there. `Write` if the writer
/// failed, and `OutOfMemory` if an allocation did: a beginning of the output was written.
pub fn filter_stream<R: Read, W: Write>(
    alloc: Global,
    full: bool,
    input: &mut R,
    output: &mut W,
) -> Result<(), StreamError>
    ensures { Streams (λ _. IsFiltered full) (IsFiltered full) (IsBeginningOf (IsFiltered full))
        (R.remaining input.old) (R.remaining input.new) (W.contents output.old) (W.contents output.new) result }
{
    let mut filter = TextFilter::new(alloc, full);
    pass_stream(alloc, &mut filter, CHUNK, input, output)
}

impl<W: Write> Pass<W> for TextFilter {
    ghost use Rattle.binfarce_filtering.specs.FilterViews.{is_full, Holds};

    ghost Holds = { λ first now. Holds (is_full first) now };

    ghost IsDone = { λ first now ended. IsFiltered (is_full first) };

    ghost MayBreakOff = { λ first. IsBeginningOf (IsFiltered (is_full first)) };

    ghost taken = { W.contents };

    // A writer doesn't tell.
    ghost has_failed = { λ output. true };

    fn take(&mut self, part: &[u8], out: &mut Vec<u8>) -> Result<(), AllocError> {
        self.push(part, out)
    }

    fn end(&mut self, _ended: bool, out: &mut Vec<u8>) -> Result<(), AllocError> {
        self.finish(out)
    }

    /// Writes the bytes, and flushes. A write that was interrupted is tried again.
    fn write(output: &mut W, bytes: &[u8]) -> Result<(), StreamError> {
        let mut at = 0;
        for _ in 0..u64::MAX {
            if at == bytes.len() {
                return output.flush().map_err(|_| StreamError::Write);
            }
            match output.write(&bytes[at..]) {
                Ok(0) => return Err(StreamError::Write),
                Ok(n) => at += n,
                Err(e) => {
                    if e.kind() != ErrorKind::Interrupted {
                        return Err(StreamError::Write);
                    }
                }
            }
        }
        Err(StreamError::Write)
    }
}
