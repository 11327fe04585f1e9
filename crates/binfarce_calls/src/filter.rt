//! `binfarce filter [--full] [NAME..]`: demangles the names in a text.

ghost use Rattle.std.specs.Prelude.{◌≡◌, map, IfOk};
ghost use Rattle.binfarce_calls.specs.Filter.{lines_of};

use std::alloc::{AllocError, Global};

/// The names as the lines of a text.
pub fn lines_of(alloc: Global, names: &[&str]) -> Result<Vec<u8>, AllocError>
    ensures { IfOk result (λ text. text.items ≡ lines_of (map (λ name. name.now) names.now)) }
{
    let mut text = Vec::new(alloc);
    for name in names {
        text.extend_from_slice(name.as_bytes())?;
        text.push(b'\n')?;
    }
    Ok(text)
}
