//! Addresses as words of a text.

ghost use Rattle.std.specs.Prelude.{◌≡◌, ◌<◌, ◌≤◌, ◌≢◌, ◌++◌, ℕ, List, true, false, length, slice_index};
ghost use Rattle.binfarce_logs.specs.Word.{address_len, bare_len, digits_len, is_word_byte, least_digits, prefixed_len};
ghost use Rattle.binfarce_logs.specs.machine.Words.{IsDecided, may_begin};

use crate::module::ends_with_plus;
use binfarce_addresses::stream::LONGEST;
use binfarce_rows::address::has_prefix;

// The length of the address that the text after `before` begins with, or 0.
pub(crate) fn address_len(is_bare: bool, before: &[u8], text: &[u8]) -> usize
    ensures within { result ≤ length text.now }
    ensures len { result ≡ address_len is_bare before.now text.now }
{
    match prefixed_len(before, text) {
        0 if is_bare => bare_len(before, text),
        len => len,
    }
}

// The length of the address with a prefix that the text after `before` begins with, or 0.
fn prefixed_len(before: &[u8], text: &[u8]) -> usize
    ensures within { result ≤ length text.now }
    ensures len { result ≡ prefixed_len before.now text.now }
{
    if !has_prefix(text) {
        return 0;
    }
    let digits = digits_len(&text[2..]);
    if digits < least_digits(before) || digits > 16 {
        return 0;
    }
    2 + digits
}

// How many digits an address with a prefix that comes after `before` has at least.
fn least_digits(before: &[u8]) -> usize
    ensures { result ≡ least_digits before.now }
{
    if ends_with_plus(before) { 1 } else { 4 }
}

// The length of the address without a prefix that the text after `before` begins with, or 0.
fn bare_len(before: &[u8], text: &[u8]) -> usize
    ensures within { result ≤ length text.now }
    ensures len { result ≡ bare_len before.now text.now }
{
    if !before.is_empty() && is_word_byte(before[before.len() - 1]) {
        return 0;
    }
    match digits_len(text) {
        digits @ 8..=16 if digits == text.len() || !is_word_byte(text[digits]) => digits,
        _ => 0,
    }
}

// A letter, a digit, `_` or `-`.
fn is_word_byte(byte: u8) -> bool
    ensures { result ≡ is_word_byte byte }
{
    byte.is_ascii_alphanumeric() || byte == b'_' || byte == b'-'
}

// How many hexadecimal digits the text begins with.
fn digits_len(text: &[u8]) -> usize
    ensures within { result ≤ length text.now }
    ensures len { result ≡ digits_len text.now }
{
    text.iter().take_while(|b| b.is_ascii_hexdigit()).count()
}

// Whether the address that the text begins with, or that it begins with none, stays whatever comes after the text.
// Nothing comes after the last text.
pub(crate) fn is_decided(is_bare: bool, is_last: bool, text: &[u8]) -> bool
    requires { 0 < length text.now }
    ensures decided { result ≡ true → IsDecided is_bare is_last text.now }
    ensures last { is_last ≡ true → result ≡ true }
    ensures short { result ≡ false → length text.now ≤ 18 }
{
    if is_last {
        return true;
    }
    if text.len() > LONGEST {
        return true;
    }
    if text.len() == 1 {
        return !may_begin(is_bare, text[0]);
    }
    if has_prefix(text) {
        return digits_len(&text[2..]) < text.len() - 2;
    }
    if !is_bare {
        return true;
    }
    digits_len(text) < text.len()
}

// Whether an address may begin with this byte.
fn may_begin(is_bare: bool, byte: u8) -> bool
    ensures { result ≡ may_begin is_bare byte }
{
    if is_bare {
        byte.is_ascii_hexdigit()
    } else {
        byte == b'0'
    }
}

// How many bytes the first one and those after it are with which no address begins.
pub(crate) fn others_len(is_bare: bool, text: &[u8]) -> usize
    requires { 0 < length text.now }
    ensures within { (0 < result) × (result ≤ length text.now) }
    ensures others { (k : ℕ) → 0 < k → k < result → may_begin is_bare (slice_index text.now k) ≡ false }
{
    1 + text[1..]
        .iter()
        .take_while(|b| !may_begin(is_bare, **b))
        .count()
}
