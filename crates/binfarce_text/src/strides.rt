//! Bytes that are compared 16 at once.

ghost use Rattle.std.specs.Prelude.{◌≡◌, length};
ghost use Rattle.std.specs.List.{prefix_len};
ghost use Rattle.binfarce_text.specs.machine.Strides.{is_other};

use std::simd::prelude::*;

/// How many bytes are compared at once.
pub const STRIDE: usize = 16;

/// How many of 16 bytes come before the first that is `a`, `b` or `c`.
#[inline(always)]
pub fn len_before(bytes: &[u8], a: u8, b: u8, c: u8) -> usize
    requires { length bytes.now ≡ 16 }
    ensures { result ≡ prefix_len (is_other a b c) bytes.now }
{
    let v = u8x16::from_slice(bytes);
    let found = v.simd_eq(u8x16::splat(a))
        | v.simd_eq(u8x16::splat(b))
        | v.simd_eq(u8x16::splat(c));
    let flags = found.to_bitmask();
    if flags == 0 {
        STRIDE
    } else {
        flags.trailing_zeros() as usize
    }
}
