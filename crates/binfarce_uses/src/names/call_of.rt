ghost use Rattle.std.specs.Prelude.{◌≡◌, ◌++◌, codes, IfOk};
ghost use Rattle.std.specs.String.{string_bytes};
ghost use Rattle.binfarce.specs.Name.{Name};
ghost use Rattle.binfarce.specs.Named.{IsNamed};

use binfarce::demangle::Demangler;
use std::alloc::{AllocError, Global};

/// The readable names of a caller and of what it calls, without their hashes.
pub fn call_of(alloc: Global, caller: &str, called: &str) -> Result<String, AllocError>
    ensures { IfOk result
        (λ text. (first : Name) × (second : Name) × IsNamed caller.now first × IsNamed called.now second
        × (string_bytes text ≡ first.trimmed ++ (codes " -> " ++ second.trimmed))) }
{
    let mut demangler = Demangler::new(alloc);
    let mut text = String::new(alloc);
    demangler.push_trimmed(&mut text, caller)?;
    text.push_str(" -> ")?;
    demangler.push_trimmed(&mut text, called)?;
    Ok(text)
}
