ghost use Rattle.std.specs.Prelude.{◌≡◌, IfOk, Ok, Some, codes};
ghost use Rattle.binfarce.specs.Symbol.{Listed};
ghost use Rattle.binfarce_tools.specs.SectionAnswer.{readers_answer, IsReportOf};

use binfarce_tools::list::Out;
use binfarce_tools::report::{ReportError, report};
use std::alloc::Global;

/// How much of `.text` each crate takes, a line for each.
pub fn sizes(alloc: Global, file: &[u8]) -> Result<Vec<u8>, ReportError>
    ensures { IfOk result
        (λ text. (listed : Listed) × (readers_answer file.now (codes ".text") ≡ Some (Ok listed))
        × IsReportOf listed text.items) }
{
    let mut out = Out::new(Vec::new(alloc));
    report(alloc, file, ".text", &mut out)?;
    Ok(out.into_inner())
}
