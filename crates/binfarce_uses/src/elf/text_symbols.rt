ghost use Rattle.std.specs.Prelude.{◌≡◌, IfOk, Ok, codes};
ghost use Rattle.binfarce.specs.Elf.{elf64, section_table};
ghost use Rattle.binfarce.specs.ElfSymbols.{elf_answer};
ghost use Rattle.binfarce.specs.Symbol.{Listed, AreSymbolsOf};
ghost use Rattle.binfarce.specs.declared.ByteOrder.TheVariants.{LittleEndian};

use binfarce::demangle::SymbolData;
use binfarce::{ByteOrder, ParseError, elf64};
use std::alloc::Global;

/// The function symbols of `.text`, with readable names.
pub fn text_symbols(alloc: Global, file: &[u8]) -> Result<Vec<SymbolData>, ParseError>
    ensures { let table = section_table elf64 (record { order = LittleEndian; bytes = file.now }) in
        IfOk result (λ symbols. (listed : Listed) → elf_answer elf64 table (codes ".text") ≡ Ok listed
        → AreSymbolsOf listed.entries symbols.items) }
{
    let elf = elf64::parse(file, ByteOrder::LittleEndian)?;
    let (symbols, _text_size) = elf.symbols(alloc, ".text")?;
    Ok(symbols)
}
