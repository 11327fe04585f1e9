ghost use Rattle.std.specs.Prelude.{◌≡◌, ◌≤◌, Ok, Err, codes, length, option_map, IsOkAnd, IsErrAnd};
ghost use Rattle.binfarce.specs.Elf.{elf64, section_table};
ghost use Rattle.binfarce.specs.ElfSymbols.{elf_answer};
ghost use Rattle.binfarce.specs.Found.{entry_at};
ghost use Rattle.binfarce.specs.Refusal.{Refusal, refusal_of};
ghost use Rattle.binfarce.specs.Symbol.{Listed};
ghost use Rattle.binfarce.specs.SymbolViews.{function_view};
ghost use Rattle.binfarce.specs.declared.ByteOrder.TheVariants.{LittleEndian};

use binfarce::{ByteOrder, FunctionSymbol, ParseError, elf64};

/// The function in `.text` that an address of a backtrace is in.
pub fn function_there(file: &[u8], address: u64) -> Result<Option<FunctionSymbol<'_>>, ParseError>
    ensures found { let table = section_table elf64 (record { order = LittleEndian; bytes = file.now }) in
        (listed : Listed) → elf_answer elf64 table (codes ".text") ≡ Ok listed → 64 ≤ length file.now
        → IsOkAnd result (λ f. option_map function_view f ≡ entry_at listed.entries address) }
    ensures refused { let table = section_table elf64 (record { order = LittleEndian; bytes = file.now }) in
        (why : Refusal) → elf_answer elf64 table (codes ".text") ≡ Err why → 64 ≤ length file.now
        → IsErrAnd result (λ e. refusal_of e ≡ why) }
{
    let elf = elf64::parse(file, ByteOrder::LittleEndian)?;
    let (functions, _text_size) = elf.functions(".text")?;
    Ok(functions.symbol_at(address))
}
