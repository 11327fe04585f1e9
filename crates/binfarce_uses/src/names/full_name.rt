ghost use Rattle.std.specs.Prelude.{◌≡◌, ◌≢◌, IfOk, MatchOption};
ghost use Rattle.std.specs.String.{string_bytes};
ghost use Rattle.binfarce.specs.Name.{Name};
ghost use Rattle.binfarce.specs.Named.{IsNamed};
ghost use Rattle.binfarce.specs.declared.demangle.Kind.TheVariants.{Unknown};

use binfarce::demangle::{Kind, SymbolName};
use std::alloc::{AllocError, Global};

/// The readable name with its hash; `None` where the name isn't mangled.
pub fn full_name(alloc: Global, name: &str) -> Result<Option<String>, AllocError>
    ensures { IfOk result (λ text. (answer : Name) × IsNamed name.now answer × MatchOption text
        (answer.kind ≡ Unknown) (λ t. (answer.kind ≢ Unknown) × (string_bytes t ≡ answer.complete))) }
{
    let demangled = SymbolName::demangle(alloc, name)?;
    if demangled.kind == Kind::Unknown {
        return Ok(None);
    }
    Ok(Some(demangled.complete))
}
