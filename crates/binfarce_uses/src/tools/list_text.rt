ghost use Rattle.std.specs.Prelude.{List, ℕ, Option};
ghost use Rattle.binfarce_tools.specs.ListWords.{outcome_of};
ghost use Rattle.binfarce_tools.specs.Answer.{selected_answer};
ghost use Rattle.binfarce_tools.specs.SelectedTexts.{IsListingOfSelected};
ghost use Rattle.binfarce_tools.specs.Tables.{AreTablesOf};
ghost use Rattle.binfarce_tools.specs.declared.SymbolTable.{SymbolTable};
ghost use Rattle.binfarce_tools.specs.Writing.{Takes};

use binfarce_tools::list::{ListError, Sink, list_tables};
use binfarce_tools::tables::Tables;
use std::alloc::Global;

/// Lists the tables that were read of a file.
pub fn list_text<S: Sink>(alloc: Global, tables: &Tables<'_>, out: &mut S) -> Result<(), ListError>
    ensures { (which : SymbolTable) (file : List ℕ) (section : Option (List ℕ))
        → AreTablesOf which file section tables.now → Takes IsListingOfSelected
        (selected_answer which section file) (S.taken out.old) (S.taken out.new) (outcome_of result) }
{
    list_tables(alloc, tables, out)
}
