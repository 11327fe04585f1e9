ghost use Rattle.std.specs.Prelude.{◌≡◌, ◌++◌, [], IfOk, codes, unwrap_or};
ghost use Rattle.std.specs.String.{string_bytes};
ghost use Rattle.binfarce.specs.Crates.{crate_of};
ghost use Rattle.binfarce.specs.Name.{Name};
ghost use Rattle.binfarce.specs.Named.{IsNamed};

use binfarce::demangle::push_crate;
use std::alloc::{AllocError, Global};

/// `in ` and the crate of a name, if it has one.
pub fn in_crate(alloc: Global, name: &str) -> Result<String, AllocError>
    ensures { IfOk result
        (λ text. (answer : Name) × IsNamed name.now answer
        × (string_bytes text ≡ codes "in " ++ unwrap_or (crate_of answer) [])) }
{
    let mut text = String::from_str(alloc, "in ")?;
    let _ = push_crate(alloc, &mut text, name)?;
    Ok(text)
}
