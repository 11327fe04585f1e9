ghost use Rattle.std.specs.Prelude.{◌≡◌, List, ℕ, Some, codes, true};
ghost use Rattle.binfarce_tools.specs.Tables.{ReadsTables};
ghost use Rattle.binfarce_tools.specs.declared.SymbolTable.TheVariants.{Dynsym};

use binfarce_bytes::source::Source;
use binfarce_tables::ReadError;
use binfarce_tools::SymbolTable;
use binfarce_tools::tables::{Selection, Tables, read};
use std::alloc::Global;

/// The tables of the function symbols of `.text` in the dynamic symbol table.
pub fn dynamic_tables<S: Source<Log = ()>>(
    alloc: Global,
    source: &S,
) -> Result<Tables<'static>, ReadError>
    ensures { (file : List ℕ) → S.bytes source.now ≡ Some file
        → ReadsTables (S.may_fail source.now ≡ true) Dynsym file (Some (codes ".text")) result }
{
    read(
        alloc,
        source,
        &mut (),
        SymbolTable::Dynsym,
        Selection::Section(".text"),
    )
}
