ghost use Rattle.std.specs.Prelude.{◌≡◌, IfOk, Ok};
ghost use Rattle.binfarce.specs.MachoSymbols.{macho_answer};
ghost use Rattle.binfarce.specs.Symbol.{Listed, AreSymbolsOf};

use binfarce::demangle::SymbolData;
use binfarce::{ParseError, macho};
use std::alloc::Global;

/// The function symbols, with readable names.
pub fn text_symbols(alloc: Global, file: &[u8]) -> Result<Vec<SymbolData>, ParseError>
    ensures { IfOk result
        (λ symbols. (listed : Listed) → macho_answer file.now ≡ Ok listed → AreSymbolsOf listed.entries symbols.items) }
{
    let (symbols, _text_size) = macho::parse(file)?.symbols(alloc)?;
    Ok(symbols)
}
