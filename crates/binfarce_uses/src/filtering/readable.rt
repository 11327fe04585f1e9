ghost use Rattle.std.specs.Prelude.{false, IfOk};
ghost use Rattle.binfarce_filtering.specs.Filter.{IsFiltered};

use binfarce_filtering::filter::filter;
use std::alloc::{AllocError, Global};

/// The log with each name in readable form.
pub fn readable(alloc: Global, log: &[u8]) -> Result<Vec<u8>, AllocError>
    ensures { IfOk result (λ out. IsFiltered false log.now out.items) }
{
    filter(alloc, false, log)
}
