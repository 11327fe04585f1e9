//! Punycode (RFC 3492): a text whose code says which characters to insert into its ASCII part, and where.

mod text;

ghost use Rattle.std.specs.Prelude.{◌≡◌, ◌+◌, ◌-◌, ◌<◌, ◌≤◌, ◌∷◌, length, take, insert, option_map, true, false, Some, IfSome, IfNone, MatchOption};
ghost use Rattle.binfarce_v0_grammar.specs.Punycode as spec;
ghost use Rattle.binfarce_text.specs.Characters.{is_scalar};
ghost use Rattle.binfarce_v0_grammar.specs.machine.Decoded.{characters_of};

pub use text::Decoded;
use text::MOST_CHARACTERS;

const BASE: u64 = 36;

const T_MIN: u64 = 1;

const T_MAX: u64 = 26;

const SKEW: u64 = 38;

const DAMP: u64 = 700;

const INITIAL_BIAS: u64 = 72;

const INITIAL_N: u64 = 128;

// The largest delta that is read. A larger one leads past the last Unicode scalar value in any text, so this limit
// refuses no valid code.
const MAX_DELTA: u64 = 0xFFFF_FFFF;

/// The text of an ASCII part and a code: the parts of a v0 identifier before and after its last `_`. Each byte of the
/// ASCII part is a character, and an empty code inserts none. Nothing is allocated.
///
/// `None` if the code isn't a sequence of deltas in the digits `a` to `z` and `0` to `9`, where it inserts a code
/// point that isn't a Unicode scalar value, and where the text would have more than 128 characters.
pub fn decode(ascii: &[u8], code: &[u8]) -> Option<Decoded>
    ensures { option_map characters_of result ≡ spec.punycode_decoded ascii.now code.now }
{
    if ascii.len() > MOST_CHARACTERS {
        return None;
    }
    let mut characters = ['\0'; MOST_CHARACTERS];
    copy_ascii(ascii, &mut characters);
    let mut count = ascii.len();
    let mut n = INITIAL_N;
    let mut i = 0;
    let mut bias = INITIAL_BIAS;
    let mut rest = code;
    while !rest.is_empty() {
        if count == MOST_CHARACTERS {
            return None;
        }
        let (delta, after) = delta_of(bias, rest)?;
        let places = count as u64 + 1;
        bias = adapted_bias(delta, places, i == 0);
        n += (i + delta) / places;
        i = (i + delta) % places;
        insert_character(&mut characters, count, i as usize, character(n)?);
        count += 1;
        i += 1;
        rest = after;
    }
    Some(Decoded::new(characters, count))
}

// Writes each byte as a character, from the front on.
fn copy_ascii(ascii: &[u8], characters: &mut [char])
    requires { length ascii.now ≤ length characters.old }
    ensures { take (length ascii.now) characters.new ≡ ascii.now }
{
    for (at, &byte) in ascii.iter().enumerate() {
        characters[at] = char::from(byte);
    }
}

// Inserts a character into the first `count`.
fn insert_character(characters: &mut [char], count: usize, position: usize, character: char)
    requires within { position ≤ count }
    requires room { count < length characters.old }
    ensures { take (count + 1) characters.new ≡ insert (take count characters.old) position character }
{
    put_first(&mut characters[position..count + 1], character);
}

// Puts a character before the others, the last of which is lost.
fn put_first(characters: &mut [char], character: char)
    requires { 0 < length characters.old }
    ensures { characters.new ≡ character ∷ take (length characters.old - 1) characters.old }
{
    characters.rotate_right(1);
    characters[0] = character;
}

// The delta that the code begins with, and the code after it (sections 3.3 and 3.4).
fn delta_of(bias: u64, code: &[u8]) -> Option<(u64, &[u8])>
    ensures none { IfNone result (IfSome (spec.integer bias 0 code.now) (λ read. MAX_DELTA < read.0)) }
    ensures some { IfSome result (λ read. spec.integer bias 0 code.now ≡ Some (read.0, read.1.now)) }
    ensures fits { IfSome result (λ read. read.0 ≤ MAX_DELTA) }
    ensures shorter { IfSome result (λ read. length read.1.now < length code.now) }
{
    let mut delta = 0;
    let mut weight = 1;
    let mut k = BASE;
    for (at, &byte) in code.iter().enumerate() {
        let digit = digit(byte)?;
        delta += digit * weight;
        if delta > MAX_DELTA {
            return None;
        }
        let threshold = k.saturating_sub(bias).min(T_MAX).max(T_MIN);
        if digit < threshold {
            return Some((delta, &code[at + 1..]));
        }
        weight *= BASE - threshold;
        k += BASE;
    }
    None
}

// The value of a digit (section 5).
#[tactic(auto, unfolding(crate::specs::Punycode::digit_of), using(std::proofs::lemmas::Bool::Decides::nat_tests))]
fn digit(byte: u8) -> Option<u64>
    ensures value { result ≡ spec.digit_of byte }
    ensures below { IfSome result (λ digit. digit < 36) }
{
    match byte {
        b'a'..=b'z' => Some(u64::from(byte - b'a')),
        b'0'..=b'9' => Some(u64::from(byte - b'0') + 26),
        _ => None,
    }
}

// The bias after a delta (section 6.1).
fn adapted_bias(delta: u64, characters: u64, first: bool) -> u64
    requires fits { delta ≤ MAX_DELTA }
    requires some { 0 < characters }
    ensures { result ≡ spec.adapted_bias delta characters first }
{
    let damped = if first { delta / DAMP } else { delta / 2 };
    let mut delta = damped + damped / characters;
    let mut k = 0;
    while delta > (BASE - T_MIN) * T_MAX / 2 {
        delta /= BASE - T_MIN;
        k += BASE;
    }
    k + (BASE - T_MIN + 1) * delta / (delta + SKEW)
}

// The character of a code point.
fn character(code_point: u64) -> Option<char>
    ensures { MatchOption result (is_scalar code_point ≡ false)
        (λ c. (is_scalar code_point ≡ true) × (c ≡ code_point)) }
{
    char::from_u32(u32::try_from(code_point).ok()?)
}
