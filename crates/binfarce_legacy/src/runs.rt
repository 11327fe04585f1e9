//! Runs of a name's bytes that denote themselves, compared 16 at a time.

ghost use Rattle.std.specs.Prelude.{◌≡◌, ◌+◌, ◌<◌, ◌≤◌, false, length, take, drop, slice_index};
ghost use Rattle.std.specs.List.{list_any, prefix_len};
ghost use Rattle.binfarce_legacy.specs.machine.Reading.{is_mark, is_plain};

use binfarce_text::strides::{STRIDE, len_before};

// Whether a byte denotes itself.
#[inline(always)]
fn is_plain(b: u8) -> bool
    ensures { result ≡ is_plain b }
{
    b != b'.' && b != b'$'
}

// How many of 16 bytes denote themselves before the first that doesn't.
#[inline(always)]
fn plain_run(bytes: &[u8]) -> usize
    requires { length bytes.now ≡ 16 }
    ensures { result ≡ prefix_len is_plain bytes.now }
{
    len_before(bytes, b'.', b'$', b'$')
}

// The end of the run of bytes from `at` on that denote themselves. `wide` begins with the name, and has bytes after it.
// These are compared too, so that a name's last bytes needn't be taken one by one; they don't change the result.
#[inline(always)]
pub(crate) fn plain_end(name: &[u8], wide: &[u8], at: usize) -> usize
    requires at { at ≤ length name.now }
    requires wide { name.now ≡ take (length name.now) wide.now }
    ensures value { result ≡ at + prefix_len is_plain (drop at name.now) }
    ensures within { (at ≤ result) × (result ≤ length name.now) }
    ensures special { result < length name.now → is_plain (slice_index name.now result) ≡ false }
{
    let mut end = at;
    while end < name.len() && wide.len() - end >= STRIDE {
        let run = plain_run(&wide[end..end + STRIDE]);
        if run < STRIDE {
            return (end + run).min(name.len());
        }
        end += STRIDE;
    }
    plain_end_slowly(name, end.min(name.len()))
}

// The same, one byte at a time.
fn plain_end_slowly(name: &[u8], at: usize) -> usize
    requires { at ≤ length name.now }
    ensures { result ≡ at + prefix_len is_plain (drop at name.now) }
{
    let mut end = at;
    while end < name.len() && is_plain(name[end]) {
        end += 1;
    }
    end
}

// Whether a byte begins an escape, or is a `:`.
#[inline(always)]
fn is_mark(b: u8) -> bool
    ensures { result ≡ is_mark b }
{
    b == b'.' || b == b'$' || b == b':'
}

// Whether one of 16 bytes is such.
#[inline(always)]
fn has_mark_among(bytes: &[u8]) -> bool
    requires { length bytes.now ≡ 16 }
    ensures { result ≡ list_any is_mark bytes.now }
{
    len_before(bytes, b'.', b'$', b':') < STRIDE
}

// Whether a byte of a name is such.
#[inline(always)]
pub(crate) fn has_mark(name: &[u8]) -> bool
    ensures { result ≡ list_any is_mark name.now }
{
    let mut at = 0;
    while name.len() - at >= STRIDE {
        if has_mark_among(&name[at..at + STRIDE]) {
            return true;
        }
        at += STRIDE;
    }
    has_mark_slowly(&name[at..])
}

// The same for fewer bytes.
#[inline(always)]
fn has_mark_slowly(bytes: &[u8]) -> bool
    ensures { result ≡ list_any is_mark bytes.now }
{
    let mut found = false;
    for b in bytes {
        found |= is_mark(*b);
    }
    found
}
