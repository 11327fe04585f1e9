//! Hexadecimal digits, read and printed.

ghost use Rattle.std.specs.Prelude.{◌≡◌, ◌<◌, false, true, SomeIff, IfSome};
ghost use Rattle.std.specs.Char.{digit_value};
ghost use Rattle.std.specs.Fmt.{digit_glyph};
ghost use Rattle.binfarce_text.specs.Letters.{is_hex_digit};

/// The value of a lower-case hexadecimal digit, from 0 to 15. None for any other byte.
pub fn hex_value(byte: u8) -> Option<u8>
    ensures value { SomeIff result (is_hex_digit byte ≡ true) (digit_value byte) }
    ensures below { IfSome result (λ value. value < 16) }
{
    match byte {
        b'0'..=b'9' => Some(byte - b'0'),
        b'a'..=b'f' => Some(byte - b'a' + 10),
        _ => None,
    }
}

/// The lower-case hexadecimal digit of a value.
#[inline(always)]
pub fn hex_digit(value: u64) -> u8
    requires { value < 16 }
    ensures { result ≡ digit_glyph false value }
{
    const DIGITS: [u8; 16] = *b"0123456789abcdef";
    DIGITS[value as usize]
}
