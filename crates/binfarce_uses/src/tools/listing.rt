ghost use Rattle.std.specs.Prelude.{◌≡◌, IfOk, Ok, Some, codes};
ghost use Rattle.binfarce.specs.Symbol.{Listed};
ghost use Rattle.binfarce_tools.specs.SectionAnswer.{readers_answer, IsListingOf};

use binfarce_tools::list::{ListError, Out, list};
use std::alloc::Global;

/// The listing of the function symbols in `.text`.
pub fn listing(alloc: Global, file: &[u8]) -> Result<Vec<u8>, ListError>
    ensures { IfOk result
        (λ text. (listed : Listed) × (readers_answer file.now (codes ".text") ≡ Some (Ok listed))
        × IsListingOf listed text.items) }
{
    let mut out = Out::new(Vec::new(alloc));
    list(alloc, file, ".text", &mut out)?;
    Ok(out.into_inner())
}
