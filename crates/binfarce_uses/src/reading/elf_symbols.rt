ghost use Rattle.std.specs.Prelude.{◌≡◌, List, ℕ, Ok, Err, Some, map, IfOk, codes};
ghost use Rattle.binfarce.specs.Elf.{elf64};
ghost use Rattle.binfarce.specs.ElfSelection.{selected_file_answer};
ghost use Rattle.binfarce.specs.Refusal.{refusal_of};
ghost use Rattle.binfarce.specs.SectionEntries.{SelectedSymbols};
ghost use Rattle.binfarce.specs.Symbol.{AreSymbolsOf};
ghost use Rattle.binfarce.specs.declared.ByteOrder.TheVariants.{LittleEndian};
ghost use Rattle.binfarce.specs.declared.ParseError.{ParseError};
ghost use Rattle.binfarce.specs.declared.SymbolTable.TheVariants.{Symtab};
ghost use Rattle.binfarce_tables.specs.declared.ReadError.TheVariants.{Refused};

use binfarce::demangle::SymbolData;
use binfarce::symbols::symbols_of_elf;
use binfarce::{ByteOrder, SymbolTable};
use binfarce_bytes::functions::Selection;
use binfarce_bytes::source::Source;
use binfarce_tables::{ReadError, Width, elf};
use std::alloc::Global;

/// The function symbols of `.text`, with readable names, and its size in bytes.
pub fn elf_symbols<S: Source<Log = ()>>(
    alloc: Global,
    source: &S,
) -> Result<(Vec<SymbolData>, Option<u64>), ReadError>
    ensures symbols { (file : List ℕ) → S.bytes source.now ≡ Some file → IfOk result
        (λ symbols. (selected : SelectedSymbols)
        → selected_file_answer Symtab elf64 LittleEndian file (Some (codes ".text")) ≡ Ok selected
        → AreSymbolsOf (map (λ e. e.entry) selected.entries) symbols.0.items
        × (symbols.1 ≡ selected.section_size)) }
    ensures refused { (file : List ℕ) (e : ParseError) → S.bytes source.now ≡ Some file
        → result ≡ Err (Refused e)
        → selected_file_answer Symtab elf64 LittleEndian file (Some (codes ".text")) ≡ Err (refusal_of e) }
{
    let order = ByteOrder::LittleEndian;
    let text = Selection::Section(".text");
    let parts = elf::read(
        alloc,
        source,
        &mut (),
        Width::Bits64,
        order,
        SymbolTable::Symtab,
        text,
    )?;
    let functions = parts.functions();
    let size = functions.section_size();
    Ok((symbols_of_elf(alloc, functions)?, size))
}
