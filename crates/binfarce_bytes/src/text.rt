//! Texts at an offset, and texts in fixed-size fields.

ghost use Rattle.std.specs.Prelude.{◌≡◌, ◌<◌, ◌≤◌, length, nat_eq, take, false};
ghost use Rattle.binfarce_bytes.specs.Text.{text_at, nul_at, up_to_nul, utf8_of, FindsText};
ghost use Rattle.std.specs.List.{list_any};
ghost use Rattle.std.specs.Option.{option_map};

/// The bytes up to the first NUL, or all if there is none; a slice of `bytes`.
pub fn up_to_nul(bytes: &[u8]) -> &[u8]
    ensures { result.now ≡ up_to_nul bytes.now }
{
    match find_nul(bytes) {
        None => bytes,
        Some(len) => &bytes[..len],
    }
}

/// The text from `start` to the first NUL, as a slice of `bytes`.
///
/// `None` if `start` is past the end, there is no NUL, the text is empty, or it isn't UTF-8.
#[tactic(auto, using(crate::proofs::Texts::finds_text))]
pub fn parse_null_string(bytes: &[u8], start: usize) -> Option<&str>
    ensures text { option_map (λ t. t.now) result ≡ text_at bytes.now start }
    ensures found { FindsText bytes.now start (option_map (λ t. t.now) result) }
{
    text_from(bytes, start)
}

#[tactic(auto, using(crate::proofs::Texts::text_of_is), unfolding(crate::specs::Text::text_at))]
fn text_from(bytes: &[u8], start: usize) -> Option<&str>
    ensures { option_map (λ t. t.now) result ≡ text_at bytes.now start }
{
    match bytes.get(start..) {
        None => None,
        Some(rest) => match find_nul(rest) {
            None | Some(0) => None,
            Some(len) => utf8_text(&rest[..len]),
        },
    }
}

// How many bytes are compared at a time: first so many, and then fewer.
const STRIDE: usize = 32;

const LAST_STRIDE: usize = 8;

fn find_nul(bytes: &[u8]) -> Option<usize>
    ensures { result ≡ nul_at bytes.now }
{
    let far = past_strides(bytes, 0, STRIDE);
    let at = past_strides(bytes, far, LAST_STRIDE);
    match bytes[at..].iter().position(|b| *b == 0) {
        None => None,
        Some(i) => Some(at + i),
    }
}

// The offset after the strides from `start` on that have no NUL, if there is none before `start`.
#[inline(always)]
fn past_strides(bytes: &[u8], start: usize, stride: usize) -> usize
    requires stride { 0 < stride }
    requires within { start ≤ length bytes.now }
    requires none { list_any (λ b. nat_eq b 0) (take start bytes.now) ≡ false }
    ensures within { result ≤ length bytes.now }
    ensures none { list_any (λ b. nat_eq b 0) (take result bytes.now) ≡ false }
{
    let mut at = start;
    while bytes.len() - at >= stride {
        if has_nul(&bytes[at..at + stride]) {
            break;
        }
        at += stride;
    }
    at
}

// Without an early exit, so that the comparisons are vectorized.
#[inline(always)]
fn has_nul(bytes: &[u8]) -> bool
    ensures { result ≡ list_any (λ b. nat_eq b 0) bytes.now }
{
    let mut found = false;
    for b in bytes {
        found |= *b == 0;
    }
    found
}

/// The bytes as a text, without a copy; `None` if they aren't UTF-8.
#[tactic(auto, using(crate::proofs::Texts::utf8_is, crate::proofs::Texts::utf8_none))]
pub fn utf8_text(bytes: &[u8]) -> Option<&str>
    ensures { option_map (λ t. t.now) result ≡ utf8_of bytes.now }
{
    match std::str::from_utf8(bytes) {
        Ok(text) => Some(text),
        Err(_) => None,
    }
}
