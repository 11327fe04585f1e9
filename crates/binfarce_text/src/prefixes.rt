//! The prefixes of mangled names.

ghost use Rattle.std.specs.Prelude.{◌≡◌, ◌∷◌, [], Some, None, if◌then◌else◌, nat_eq, length, drop};
ghost use Rattle.std.specs.Option.{option_copied};
ghost use Rattle.std.specs.List.{starts_with};
ghost use Rattle.binfarce_text.specs.Prefixes.{after_prefix};

// The rest of a text after a prefix.
#[tactic(auto, using(crate::proofs::PrefixLemmas::stripped))]
fn after<'a>(text: &'a str, prefix: &str) -> Option<&'a str>
    ensures { option_copied result
        ≡ (if starts_with nat_eq text.now prefix.now then Some (drop (length prefix.now) text.now) else None) }
{
    text.strip_prefix(prefix)
}

/// The rest of `text` after the first of three prefixes that it begins with. `None` if it begins with none of them.
/// Nothing is copied.
pub fn after_prefix<'a>(text: &'a str, first: &str, second: &str, third: &str) -> Option<&'a str>
    ensures { option_copied result ≡ after_prefix (first.now ∷ second.now ∷ third.now ∷ []) text.now }
{
    if let Some(part) = after(text, first) {
        return Some(part);
    }
    if let Some(part) = after(text, second) {
        return Some(part);
    }
    after(text, third)
}
