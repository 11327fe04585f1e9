ghost use Rattle.std.specs.Prelude.{Ok};
ghost use Rattle.binfarce.specs.SectionEntries.{SelectsSome};
ghost use Rattle.binfarce.specs.Symbol.{Answers};
ghost use Rattle.binfarce.specs.SymbolViews.{HoldsSized};
ghost use Rattle.binfarce_tables.specs.PeReading.{selected_view};

use binfarce::{ParseError, SectionFunction};
use binfarce_tables::pe::Parts;
use std::alloc::Global;

/// The function symbols with the numbers of their sections, and the size of `.text` in bytes in the file; no size where
/// all sections are selected.
pub fn pe_symbols(
    alloc: Global,
    parts: &Parts,
) -> Result<(Vec<SectionFunction<'_>>, Option<u64>), ParseError>
    ensures { Answers HoldsSized SelectsSome (Ok (selected_view parts.entry.now)) result }
{
    Ok((parts.functions(alloc)?, parts.section_size()))
}
