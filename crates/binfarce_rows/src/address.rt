//! Addresses as words.

ghost use Rattle.std.specs.Prelude.{◌≡◌};
ghost use Rattle.binfarce_rows.specs.Address.{address_of, has_prefix, hexadecimal};

/// The address in a word: 1 to 16 hexadecimal digits, in upper or lower case, optionally after `0x` or `0X`. `None` for
/// any other word. Nothing is allocated.
pub fn parse_address(word: &[u8]) -> Option<u64>
    ensures { result ≡ address_of word.now }
{
    let digits = word.strip_prefix(b"0x").or(word.strip_prefix(b"0X"));
    hex_number(digits.unwrap_or(word))
}

/// The number that 1 to 16 hexadecimal digits write. `None` for anything else. Nothing is allocated.
pub fn hex_number(digits: &[u8]) -> Option<u64>
    ensures { result ≡ hexadecimal digits.now }
{
    if digits.is_empty() || digits.len() > 16 {
        return None;
    }
    let mut number = 0;
    for digit in digits {
        number = 16 * number + u64::from(char::from(*digit).to_digit(16)?);
    }
    Some(number)
}

/// Whether the word begins with `0x` or `0X`.
pub fn has_prefix(word: &[u8]) -> bool
    ensures { result ≡ has_prefix word.now }
{
    word.starts_with(b"0x") || word.starts_with(b"0X")
}
