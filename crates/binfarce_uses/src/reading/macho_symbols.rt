ghost use Rattle.std.specs.Prelude.{◌≢◌, [], Ok};
ghost use Rattle.binfarce.specs.MachoSelection.{symbols_of};
ghost use Rattle.binfarce.specs.Symbol.{Answers};
ghost use Rattle.binfarce.specs.SymbolViews.{HoldsSelected};
ghost use Rattle.binfarce_tables.specs.MachoReading.{parts_view};

use binfarce::{ParseError, SectionFunction};
use binfarce_tables::macho::Parts;
use std::alloc::Global;

/// The function symbols with the numbers of their sections.
pub fn macho_symbols(alloc: Global, parts: &Parts) -> Result<Vec<SectionFunction<'_>>, ParseError>
    ensures { let tables = parts_view parts.entry.now in
        Answers HoldsSelected (λ _. tables.sections.sections ≢ []) (Ok (symbols_of tables)) result }
{
    parts.functions(alloc)
}
