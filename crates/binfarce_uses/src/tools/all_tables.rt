ghost use Rattle.std.specs.Prelude.{◌≡◌, List, ℕ, None, Some, true};
ghost use Rattle.binfarce_tools.specs.Tables.{ReadsTables};
ghost use Rattle.binfarce_tools.specs.declared.SymbolTable.TheVariants.{Symtab};

use binfarce_bytes::source::Source;
use binfarce_tables::ReadError;
use binfarce_tools::SymbolTable;
use binfarce_tools::tables::{Selection, Tables, read};
use std::alloc::Global;

/// The tables of the function symbols of all sections; their listing names each section.
pub fn all_tables<S: Source<Log = ()>>(
    alloc: Global,
    source: &S,
) -> Result<Tables<'static>, ReadError>
    ensures { (file : List ℕ) → S.bytes source.now ≡ Some file
        → ReadsTables (S.may_fail source.now ≡ true) Symtab file None result }
{
    read(alloc, source, &mut (), SymbolTable::Symtab, Selection::All)
}
