ghost use Rattle.std.specs.Prelude.{false};
ghost use Rattle.binfarce_text.specs.Streams.{IsBeginningOf, Streams};
ghost use Rattle.binfarce_filtering.specs.Filter.{IsFiltered};

use binfarce_filtering::stream::{StreamError, filter_stream};
use std::alloc::Global;
use std::io::{Read, Write};

/// Copies a log, with each name in readable form.
pub fn copy_readable<R: Read, W: Write>(
    alloc: Global,
    input: &mut R,
    output: &mut W,
) -> Result<(), StreamError>
    ensures { Streams (λ _. IsFiltered false) (IsFiltered false) (IsBeginningOf (IsFiltered false))
        (R.remaining input.old) (R.remaining input.new) (W.contents output.old) (W.contents output.new) result }
{
    filter_stream(alloc, false, input, output)
}
