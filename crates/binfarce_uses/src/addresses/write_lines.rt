ghost use Rattle.std.specs.Prelude.{List, None, Option, Some, ℕ, true, false};
ghost use Rattle.binfarce_addresses.specs.Lines.{AreLinesAt, outcome_of};
ghost use Rattle.binfarce_tools.specs.Answer.{selected_answer};
ghost use Rattle.binfarce_tools.specs.Tables.{AreTablesOf};
ghost use Rattle.binfarce_tools.specs.declared.SymbolTable.{SymbolTable};
ghost use Rattle.binfarce_rows.specs.declared.json.Form.TheVariants.{Lines};
ghost use Rattle.binfarce_tools.specs.Writing.{Takes};

use binfarce_addresses::at::at_tables;
use binfarce_addresses::{Counts, Lookup};
use binfarce_rows::json::Form;
use binfarce_tools::list::{ListError, Sink};
use binfarce_tools::tables::Tables;
use std::alloc::Global;

/// Symbolizes the return addresses of a backtrace by the tables that were read of a program.
pub fn write_lines<S: Sink>(
    alloc: Global,
    tables: &Tables<'_>,
    program: &[u8],
    frames: &[u64],
    out: &mut S,
) -> Result<Counts, ListError>
    ensures { (which : SymbolTable) (file : List ℕ) (section : Option (List ℕ))
        → AreTablesOf which file section tables.now
        → Takes (AreLinesAt (record {
          base = Some 0x555555554000;
          linked = 0;
          size = None;
          origin = 0;
          is_return = true;
          form = Lines;
          path = program.entry;
        }) frames.now)
        (selected_answer which section file) (S.taken out.old) (S.taken out.new) (outcome_of result) }
{
    let lookup = Lookup {
        base: Some(0x5555_5555_4000),
        linked: 0,
        size: None,
        origin: 0,
        is_return: true,
        form: Form::Lines,
        path: program,
    };
    at_tables(alloc, tables, lookup, frames, out)
}
