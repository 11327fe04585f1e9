//! The head of a line, before the name: the address and the size.

ghost use Rattle.std.specs.Prelude.{◌≡◌, ◌++◌, ◌<◌, ◌^◌, OnOk, length, replicate};
ghost use Rattle.std.specs.String.{string_bytes};
ghost use Rattle.binfarce_rows.specs.Columns.{address_text, line_head, size_text};

use binfarce_text::digits::hex_digit;
use std::alloc::AllocError;
use std::fmt::Write;

/// Appends the head of a line to the text: `{address:016x} {size:>10} `.
///
/// # Errors
///
/// `AllocError` if an allocation failed. The text is then unspecified.
#[tactic(auto, using(crate::proofs::Pads::address_padded, crate::proofs::Pads::size_padded))]
pub fn push_head(text: &mut String, address: u64, size: u64) -> Result<(), AllocError>
    ensures { OnOk result (string_bytes text.new ≡ string_bytes text.old ++ line_head address size) }
{
    if size >= 10_000_000_000 {
        return write!(text, "{address:016x} {size:>10} ");
    }
    let mut head = [b' '; 28];
    put_head(&mut head, address, size);
    text.push_str(std::str::from_utf8(&head).unwrap())
}

// Puts an address and a size of at most 10 digits into 28 blanks.
#[inline(always)]
fn put_head(head: &mut [u8], address: u64, size: u64)
    requires blanks { head.old ≡ replicate 28 32 }
    requires short { size < 10 ^ 10 }
    ensures { head.new ≡ line_head address size }
{
    put_address(&mut head[..16], address);
    put_size(&mut head[17..27], size);
}

// Puts an address in 16 hexadecimal digits.
#[inline(always)]
fn put_address(digits: &mut [u8], address: u64)
    requires { length digits.old ≡ 16 }
    ensures { digits.new ≡ address_text address }
{
    let mut rest = address;
    let mut at = 16;
    while at > 0 {
        at -= 1;
        digits[at] = hex_digit(rest % 16);
        rest /= 16;
    }
}

// Puts a size in decimal, to the right of blanks.
#[inline(always)]
fn put_size(digits: &mut [u8], size: u64)
    requires blanks { digits.old ≡ replicate 10 32 }
    requires short { size < 10 ^ 10 }
    ensures { digits.new ≡ size_text size }
{
    let mut rest = size;
    let mut at = 9;
    while rest >= 10 {
        digits[at] = b'0' + (rest % 10) as u8;
        rest /= 10;
        at -= 1;
    }
    digits[at] = b'0' + rest as u8;
}
