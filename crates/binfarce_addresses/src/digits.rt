//! Numbers in hexadecimal digits.

ghost use Rattle.std.specs.Prelude.{◌≡◌, ◌++◌, ◌∷◌, [], OnOk, false, codes};
ghost use Rattle.std.specs.Fmt.{digits};
ghost use Rattle.binfarce_rows.specs.Columns.{address_text};

use binfarce_text::digits::hex_digit;
use std::alloc::AllocError;

/// Appends an address and a blank to the text.
pub(crate) fn push_address(text: &mut Vec<u8>, address: u64) -> Result<(), AllocError>
    ensures { OnOk result (text.new.items ≡ text.old.items ++ (address_text address ++ codes " ")) }
{
    text.extend_from_slice(&digits_of(address))?;
    Ok(text.push(b' ')?)
}

/// Appends an offset, as `+0x` and hexadecimal digits, and a byte to the text.
///
/// # Errors
///
/// `AllocError` if an allocation failed: the text is then unspecified.
#[inline(always)]
pub fn push_offset(text: &mut Vec<u8>, offset: u64, end: u8) -> Result<(), AllocError>
    ensures { OnOk result (text.new.items ≡ text.old.items
        ++ (codes "+0x" ++ (digits 16 false offset ++ end ∷ []))) }
{
    let zeros = (offset.leading_zeros() / 4).min(15) as usize;
    text.extend_from_slice(b"+0x")?;
    text.extend_from_slice(&digits_of(offset)[zeros..])?;
    Ok(text.push(end)?)
}

// The 16 digits of a number: the number of steps is fixed, so no branch is mispredicted.
fn digits_of(number: u64) -> [u8; 16]
    ensures { result ≡ address_text number }
{
    let mut shown = [b'0'; 16];
    let mut rest = number;
    for k in 0..16 {
        shown[15 - k] = hex_digit(rest % 16);
        rest /= 16;
    }
    shown
}
