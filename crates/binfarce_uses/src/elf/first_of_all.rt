ghost use Rattle.std.specs.Prelude.{◌≡◌, Ok, Err, None, option_map, slice_get, IsErrAnd, MatchResult};
ghost use Rattle.binfarce.specs.Elf.{elf64, section_table};
ghost use Rattle.binfarce.specs.ElfSelection.{elf_selected, Selected};
ghost use Rattle.binfarce.specs.Refusal.{Refusal, refusal_of, out_of_memory};
ghost use Rattle.binfarce.specs.SymbolViews.{section_function_view};
ghost use Rattle.binfarce.specs.declared.SymbolTable.TheVariants.{Dynsym};

use binfarce::elf64::Elf64;
use binfarce::{ParseError, SectionFunction, SymbolTable};
use std::alloc::Global;

/// The first function of any section that the dynamic symbol table has.
pub fn first_of_all<'a>(
    alloc: Global,
    elf: &Elf64<'a>,
) -> Result<Option<SectionFunction<'a>>, ParseError>
    ensures found { (selected : Selected) → elf_selected Dynsym elf64 (section_table elf64 elf.now) None
        ≡ Ok selected
        → MatchResult result (λ f. option_map section_function_view f ≡ slice_get selected.entries 0)
        (λ e. refusal_of e ≡ out_of_memory) }
    ensures refused { (why : Refusal) → elf_selected Dynsym elf64 (section_table elf64 elf.now) None ≡ Err why
        → IsErrAnd result (λ e. refusal_of e ≡ why) }
{
    let functions = elf.all_functions(alloc, SymbolTable::Dynsym)?;
    Ok(functions.first().copied())
}
