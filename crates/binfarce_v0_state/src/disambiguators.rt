//! Crates' disambiguators as they are shown.

ghost use Rattle.std.specs.Prelude.{◌≡◌, ◌≤◌, drop, length, true};
ghost use Rattle.binfarce_v0_state.specs.LeafTexts.{disambiguator_text};

use binfarce_text::digits::hex_digit;

/// Writes a disambiguator at the end of the 18 bytes; returns the index of its first byte.
#[inline(always)]
pub fn put_disambiguator(shown: &mut [u8], n: u64) -> usize
    requires { length shown.old ≡ 18 }
    ensures text { drop result shown.new ≡ disambiguator_text true n }
    ensures within { result ≤ length shown.new }
{
    shown[17] = b']';
    let mut rest = n;
    let mut at = 16;
    while rest >= 16 {
        shown[at] = hex_digit(rest % 16);
        rest /= 16;
        at -= 1;
    }
    shown[at] = hex_digit(rest);
    shown[at - 1] = b'[';
    at - 1
}
