//! The elements of a legacy mangling: the length of each, and where all of them end.

ghost use Rattle.std.specs.Prelude.{◌≡◌, ℕ, ◌+◌, ◌-◌, ◌*◌, ◌^◌, ◌<◌, ◌≤◌, List, MatchOption, SomeIff, IfSome, length, take, drop, min};
ghost use Rattle.std.specs.List.{list_all, prefix_len};
ghost use Rattle.std.specs.Char.{is_ascii_digit};
ghost use Rattle.std.specs.Str.Parse.{digits_value};
ghost use Rattle.binfarce_text.specs.Letters.{is_hex_digit};
ghost use Rattle.binfarce_legacy.specs.Legacy.{Element, Reads, ends_in_hash, is_hash};
ghost use Rattle.binfarce_legacy.specs.machine.Reading.{name_start, name_end, HasElement};

// The length of the run of digits that `text` begins with, and the number that they write, if it is below `usize::MAX`.
fn count(text: &[u8]) -> (usize, usize)
    ensures digits { result.0 ≡ prefix_len is_ascii_digit text.now }
    ensures number { result.1 ≡ min (digits_value 10 (take result.0 text.now)) (2 ^ 64 - 1) }
{
    if let Some(few) = few_digits(text) {
        return few;
    }
    let mut digits = 0;
    let mut number: usize = 0;
    while digits < text.len() && text[digits].is_ascii_digit() {
        let digit = text[digits] - b'0';
        number = with_digit(number, digit);
        digits += 1;
    }
    (digits, number)
}

// The same where `text` begins with one or two digits and has more than two bytes: nearly every length is so short.
// `None` doesn't mean that there is no digit.
#[inline(always)]
fn few_digits(text: &[u8]) -> Option<(usize, usize)>
    ensures digits { IfSome result (λ few. few.0 ≡ prefix_len is_ascii_digit text.now) }
    ensures number { IfSome result (λ few. few.1 ≡ digits_value 10 (take few.0 text.now)) }
    ensures below { IfSome result (λ few. few.1 < 100) }
{
    if text.len() < 3 || !text[0].is_ascii_digit() {
        return None;
    }
    let first = usize::from(text[0] - b'0');
    if !text[1].is_ascii_digit() {
        return Some((1, first));
    }
    if text[2].is_ascii_digit() {
        return None;
    }
    Some((2, first * 10 + usize::from(text[1] - b'0')))
}

// A number with one more digit after it, if that is below `usize::MAX`.
#[inline(always)]
fn with_digit(number: usize, digit: u8) -> usize
    requires { digit < 10 }
    ensures { result ≡ min (number * 10 + digit) (2 ^ 64 - 1) }
{
    number.saturating_mul(10).saturating_add(usize::from(digit))
}

// Where the name of the element at `at` begins and ends.
pub(crate) fn element(text: &[u8], at: usize) -> Option<(usize, usize)>
    requires { at ≤ length text.now }
    ensures { SomeIff result (HasElement (drop at text.now))
        (at + name_start (drop at text.now), at + name_end (drop at text.now)) }
{
    let rest = &text[at..];
    let (digits, number) = count(rest);
    if digits == 0 {
        return None;
    }
    if rest.len() - digits < number {
        return None;
    }
    let start = at + digits;
    Some((start, start + number))
}

/// The position after the `E` that ends the elements at the front of `text`, and whether the last element is a hash:
/// `17h` and 16 lower-case hexadecimal digits. `None` if `text` doesn't begin with elements and an `E`. `text` is
/// what follows the prefix of a legacy mangling; bytes after the `E` aren't checked. Nothing is allocated.
#[inline(always)]
pub fn elements_end(text: &[u8]) -> Option<(usize, bool)>
    ensures { MatchOption result
        ((elements : List Element) (rest : List ℕ) → ¬ (Reads text.now elements rest))
        (λ end. (end.0 ≤ length text.now) × ((elements : List Element) × Reads text.now elements (drop end.0 text.now)
        × (end.1 ≡ ends_in_hash elements))) }
{
    let mut last = 0;
    let mut at = 0;
    while at < text.len() && text[at] != b'E' {
        let (_, end) = element(text, at)?;
        last = at;
        at = end;
    }
    if at == text.len() {
        return None;
    }
    Some((at + 1, is_hash(&text[last..at])))
}

// Whether an element with its digits is a hash.
fn is_hash(element: &[u8]) -> bool
    ensures { result ≡ is_hash element.now }
{
    element.starts_with(b"17h") && are_hex_digits(&element[3..])
}

// Whether each byte is a lower-case hexadecimal digit.
fn are_hex_digits(bytes: &[u8]) -> bool
    ensures { result ≡ list_all is_hex_digit bytes.now }
{
    bytes
        .iter()
        .all(|byte| matches!(*byte, b'0'..=b'9' | b'a'..=b'f'))
}
