ghost use Rattle.std.specs.Prelude.{◌≡◌, map, option_map};
ghost use Rattle.binfarce.specs.Found.{entry_at};
ghost use Rattle.binfarce.specs.SymbolViews.{function_view};

use binfarce::{FunctionSymbol, symbol_at};

/// The name of the function that an address is in, as the file stores it.
pub fn name_at<'a>(functions: &[FunctionSymbol<'a>], address: u64) -> Option<&'a str>
    ensures { option_map (λ name. name.now) result ≡ option_map
        (λ entry. entry.name) (entry_at (map function_view functions.now) address) }
{
    let function = symbol_at(functions, address)?;
    Some(function.name)
}
