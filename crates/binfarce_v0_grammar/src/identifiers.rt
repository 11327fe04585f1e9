//! Identifiers of a v0 name (RFC 2603, "Identifiers" and "Punycode identifiers").

ghost use Rattle.std.specs.Prelude.{◌≡◌, ◌-◌, ◌≤◌, ◌==◌, IfSome, not, length, slice_range};
ghost use Rattle.std.specs.Option.{option_map};
ghost use Rattle.std.specs.Str.{IsAscii};
ghost use Rattle.std.specs.List.{suffix_len};
ghost use Rattle.binfarce_v0_grammar.specs.Identifiers.{identifier_of, identifier_bytes, undisambiguated_identifier, identifier};
ghost use Rattle.binfarce_v0_grammar.specs.machine.View.{undisambiguated_view, identifier_view, without_disambiguator};

use crate::numbers::{
    byte_at, length_at, optional_base_62_number, past, skip_optional_base_62_number,
};

/// `<undisambiguated-identifier>`: its ASCII part, and its Punycode part. Both are slices of the name: nothing is
/// copied.
#[derive(Clone, Copy)]
pub struct UndisambiguatedIdentifier<'a> {
    /// The characters before the last `_` of a Punycode identifier, and all of any other.
    pub ascii: &'a str,
    /// The characters after that `_`; empty where the identifier isn't Punycode.
    pub punycode: &'a str,
}

/// `<identifier>`: an undisambiguated identifier with its disambiguator.
#[derive(Clone, Copy)]
pub struct Identifier<'a> {
    /// 0 if none is written.
    pub disambiguator: u64,
    pub name: UndisambiguatedIdentifier<'a>,
}

// Where the Punycode of an identifier begins: after its last `_`.
fn punycode_start(bytes: &[u8]) -> usize
    ensures { result ≡ length bytes.now - suffix_len (λ x. not (x == 95)) bytes.now }
{
    let mut start = bytes.len();
    while start > 0 && bytes[start - 1] != b'_' {
        start -= 1;
    }
    start
}

/// The slice of an ASCII text between two positions.
#[inline(always)]
#[tactic(auto, using(crate::proofs::TextLemmas::ascii_parts))]
pub fn ascii_slice(text: &str, start: usize, end: usize) -> &str
    requires ascii { IsAscii text.now }
    requires ordered { start ≤ end }
    requires within { end ≤ length text.now }
    ensures value { result.now ≡ slice_range text.now start end }
    ensures ascii { IsAscii result.now }
{
    &text[start..end]
}

// The bytes of an identifier.
#[inline(always)]
#[tactic(auto, using(crate::proofs::TextLemmas::identifier_split, crate::proofs::TextLemmas::identifier_unsplit), unfolding(crate::specs::Identifiers::identifier_of))]
fn identifier_of<'a>(is_punycode: bool, text: &'a str) -> Option<UndisambiguatedIdentifier<'a>>
    requires { IsAscii text.now }
    ensures value { option_map undisambiguated_view result ≡ identifier_of is_punycode text.now }
    ensures ascii { IfSome result (λ i. IsAscii i.ascii.now) }
{
    if !is_punycode {
        return Some(UndisambiguatedIdentifier {
            ascii: text,
            punycode: "",
        });
    }
    let start = punycode_start(text.as_bytes());
    if start == text.len() {
        return None;
    }
    let ascii = ascii_slice(text, 0, start.saturating_sub(1));
    let punycode = ascii_slice(text, start, text.len());
    Some(UndisambiguatedIdentifier { ascii, punycode })
}

// As many bytes as an identifier's length says.
#[inline(always)]
#[tactic(auto, unfolding(crate::specs::Identifiers::identifier_bytes))]
fn identifier_bytes<'a>(
    part: &'a str,
    is_punycode: bool,
    start: usize,
    size: u64,
) -> Option<(UndisambiguatedIdentifier<'a>, usize)>
    requires ascii { IsAscii part.now }
    ensures value { option_map
        (λ i. (undisambiguated_view i.0, i.1)) result ≡ identifier_bytes part.now is_punycode start size }
    ensures ascii { IfSome result (λ i. IsAscii i.0.ascii.now) }
{
    let end = start.checked_add(usize::try_from(size).ok()?)?;
    if end > part.len() {
        return None;
    }
    let parts = identifier_of(is_punycode, ascii_slice(part, start, end))?;
    Some((parts, end))
}

/// `<undisambiguated-identifier> = ["u"] <decimal-number> ["_"] <bytes>` at a position, and the position after it.
///
/// `None` if there is no number, where the part ends before as many bytes, and where a Punycode identifier has no
/// Punycode.
#[inline(always)]
#[tactic(auto, unfolding(crate::specs::Identifiers::undisambiguated_identifier))]
pub fn undisambiguated_at<'a>(
    part: &'a str,
    at: usize,
) -> Option<(UndisambiguatedIdentifier<'a>, usize)>
    requires ascii { IsAscii part.now }
    ensures value { option_map (λ i. (undisambiguated_view i.0, i.1)) result
        ≡ undisambiguated_identifier part.now at }
    ensures ascii { IfSome result (λ i. IsAscii i.0.ascii.now) }
{
    let bytes = part.as_bytes();
    let is_punycode = byte_at(bytes, at) == b'u';
    let (size, after) = length_at(bytes, past(bytes, b'u', at))?;
    identifier_bytes(part, is_punycode, past(bytes, b'_', after), size)
}

/// `<identifier> = [<disambiguator>] <undisambiguated-identifier>` at a position, and the position after it. None where
/// either is invalid.
#[tactic(auto, unfolding(crate::specs::Identifiers::identifier))]
pub fn identifier_at<'a>(part: &'a str, at: usize) -> Option<(Identifier<'a>, usize)>
    requires ascii { IsAscii part.now }
    ensures { option_map (λ l. (identifier_view l.0, l.1)) result ≡ identifier part.now at }
{
    let (disambiguator, start) = optional_base_62_number(part.as_bytes(), b's', at)?;
    let (undisambiguated, after) = undisambiguated_at(part, start)?;
    let identifier = Identifier {
        disambiguator,
        name: undisambiguated,
    };
    Some((identifier, after))
}

/// The undisambiguated identifier of the `<identifier>` at a position, and the position after it: the disambiguator is
/// checked and not kept. None where either is invalid.
#[inline(always)]
#[tactic(auto, using(crate::proofs::SkipLemmas::identifier_name))]
pub fn identifier_name_at<'a>(
    part: &'a str,
    at: usize,
) -> Option<(UndisambiguatedIdentifier<'a>, usize)>
    requires ascii { IsAscii part.now }
    ensures { option_map
        (λ i. (undisambiguated_view i.0, i.1)) result ≡ without_disambiguator (identifier part.now at) }
{
    let start = skip_optional_base_62_number(part.as_bytes(), b's', at)?;
    undisambiguated_at(part, start)
}
