//! The escapes in the names of elements: `$`, a word or a number, and `$`.

ghost use Rattle.std.specs.Prelude.{◌≡◌, ◌<◌, ◌≤◌, IfSome, true, length, take, min, nat_eq, codes, slice_index};
ghost use Rattle.std.specs.Option.{option_map};
ghost use Rattle.std.specs.List.{prefix_len, starts_with};
ghost use Rattle.std.specs.Str.Parse.{digits_value};
ghost use Rattle.binfarce_text.specs.Letters.{is_hex_digit};
ghost use Rattle.binfarce_legacy.specs.Legacy.{named_escape, numbered_escape, first_piece, is_printed};
ghost use Rattle.binfarce_legacy.specs.machine.Reading.{piece_of, piece_or_all};

use binfarce_text::digits::hex_value;

// The character of the named escape that `name` begins with, and the escape's length.
#[tactic(auto, unfolding(crate::specs::Legacy::named_escape))]
fn named_escape(name: &[u8]) -> Option<(char, usize)>
    ensures value { option_map piece_of result ≡ named_escape name.now }
    ensures within { IfSome result (λ p. (0 < p.1) × (p.1 ≤ length name.now)) }
{
    if name.starts_with(b"$LT$") {
        Some(('<', 4))
    } else if name.starts_with(b"$GT$") {
        Some(('>', 4))
    } else if name.starts_with(b"$RF$") {
        Some(('&', 4))
    } else if name.starts_with(b"$C$") {
        Some((',', 3))
    } else if name.starts_with(b"$LP$") {
        Some(('(', 4))
    } else if name.starts_with(b"$RP$") {
        Some((')', 4))
    } else if name.starts_with(b"$BP$") {
        Some(('*', 4))
    } else if name.starts_with(b"$SP$") {
        Some(('@', 4))
    } else {
        None
    }
}

// The length of the run of hexadecimal digits that `text` begins with, and the number that they write, if it is below
// 0x110000.
fn hex_count(text: &[u8]) -> (usize, u32)
    ensures digits { result.0 ≡ prefix_len is_hex_digit text.now }
    ensures number { result.1 ≡ min (digits_value 16 (take result.0 text.now)) 0x110000 }
{
    if let Some(number) = two_hex_digits(text) {
        return (2, number);
    }
    let mut digits = 0;
    let mut number: u32 = 0;
    while digits < text.len() {
        let Some(value) = hex_value(text[digits]) else {
            break;
        };
        number = (number * 16 + u32::from(value)).min(0x11_0000);
        digits += 1;
    }
    (digits, number)
}

// The number that two hexadecimal digits before a `$` write: nearly every escape has two.
#[inline(always)]
fn two_hex_digits(text: &[u8]) -> Option<u32>
    ensures digits { IfSome result (λ _. 2 ≡ prefix_len is_hex_digit text.now) }
    ensures number { IfSome result (λ number. number ≡ digits_value 16 (take 2 text.now)) }
    ensures below { IfSome result (λ number. number < 0x110000) }
{
    if text.len() < 3 || text[2] != b'$' {
        return None;
    }
    let first = hex_value(text[0])?;
    let second = hex_value(text[1])?;
    Some(u32::from(first) * 16 + u32::from(second))
}

// A character that is printed: a scalar value that isn't a control character.
fn is_printed(code: u32) -> bool
    ensures { result ≡ is_printed code }
{
    matches!(code, 0x20..=0x7E | 0xA0..=0xD7FF | 0xE000..=0x10_FFFF)
}

// The character of the numbered escape that `name` begins with, and the escape's length.
fn numbered_escape(name: &[u8]) -> Option<(char, usize)>
    requires { starts_with nat_eq name.now (codes "$u") ≡ true }
    ensures value { option_map piece_of result ≡ numbered_escape name.now }
    ensures within { IfSome result (λ p. (0 < p.1) × (p.1 ≤ length name.now)) }
{
    let (digits, code) = hex_count(&name[2..]);
    let end = 2 + digits;
    if digits > 0 && end < name.len() && name[end] == b'$' && is_printed(code) {
        Some((char::from_u32(code)?, end + 1))
    } else {
        None
    }
}

// The character of the escape that `name` begins with, and the escape's length, where its `$`
// begins one.
pub(crate) fn escape(name: &[u8]) -> Option<(char, usize)>
    requires { slice_index name.now 0 ≡ 36 }
    ensures value { first_piece name.now ≡ piece_or_all name.now (option_map piece_of result) }
    ensures within { IfSome result (λ p. (0 < p.1) × (p.1 ≤ length name.now)) }
{
    if name.starts_with(b"$u") {
        numbered_escape(name)
    } else {
        named_escape(name)
    }
}
