ghost use Rattle.std.specs.Prelude.{◌≡◌, List, ℕ, IfOk, Ok, Option, Some};
ghost use Rattle.binfarce.specs.SectionEntries.{SelectedSymbols};
ghost use Rattle.binfarce_figures.specs.Claims.{IsSumOf};
ghost use Rattle.binfarce_tools.specs.Answer.{selected_answer};
ghost use Rattle.binfarce_tools.specs.Tables.{AreTablesOf};
ghost use Rattle.binfarce_tools.specs.declared.SymbolTable.{SymbolTable};

use binfarce_figures::claims::Claims;
use binfarce_tools::report::ReportError;
use binfarce_tools::tables::Tables;
use std::alloc::Global;

/// How many bytes the function symbols have that the tables were read for, each byte counted once.
pub fn function_bytes(alloc: Global, tables: &Tables<'_>) -> Result<u64, ReportError>
    ensures { (which : SymbolTable) (file : List ℕ) (section : Option (List ℕ)) (selected : SelectedSymbols)
        → AreTablesOf which file section tables.now → selected_answer which section file ≡ Some (Ok selected)
        → IfOk result (IsSumOf selected) }
{
    let claims = Claims::of_tables(alloc, tables)?;
    Ok(claims.total())
}
