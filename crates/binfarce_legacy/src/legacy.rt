//! The legacy mangling: `_ZN`, elements that each follow their length, and `E`.

ghost use Rattle.std.specs.Prelude.{◌≡◌, ℕ, ◌<◌, ◌≤◌, ◌++◌, List, MatchOption, IfOk, OnOk, OnErr, false, IsTrue, length, take, drop, slice_index};
ghost use Rattle.std.specs.Option.{option_copied};
ghost use Rattle.std.specs.List.{list_any};
ghost use Rattle.std.specs.Str.{IsAscii, encode_utf8_all};
ghost use Rattle.std.specs.String.{string_bytes};
ghost use Rattle.binfarce_legacy.specs.Legacy.{Element, Reads, IsLegacy, part_after_prefix, first_piece, name_chars, legacy_chars, without_last_part, IsFront};
ghost use Rattle.binfarce_legacy.specs.machine.Reading.{is_mark, is_plain, path_chars, chars_left, Grows};

use crate::elements::{element, elements_end};
use crate::escapes::escape;
use crate::runs::{has_mark, plain_end};
use binfarce_text::prefixes::after_prefix;
use binfarce_text::suffixes::is_allowed_rest;
use std::alloc::{AllocError, Global};

// The part of a text after the prefix of a legacy mangling.
#[tactic(auto, unfolding(crate::specs::Legacy::part_after_prefix))]
fn part_after_prefix(text: &str) -> Option<&str>
    ensures { option_copied result ≡ part_after_prefix text.now }
{
    after_prefix(text, "_ZN", "ZN", "__ZN")
}

/// The part of `text` after the prefix of a legacy mangling, and the suffix after its `E` in that part. `None` if
/// `text` isn't a legacy mangling. Nothing is copied.
pub fn mangling(text: &str) -> Option<(&str, &str)>
    ensures { MatchOption result
        ((part : List ℕ) (elements : List Element) (rest : List ℕ) → ¬ (IsLegacy text.now part elements rest))
        (λ m. (elements : List Element) × IsLegacy text.now m.0.now elements m.1.now) }
{
    let part = part_after_prefix(text)?;
    let bytes = part.as_bytes();
    let (end, _) = elements_end(bytes)?;
    if !is_allowed_rest(&bytes[end..]) {
        return None;
    }
    if !bytes.is_ascii() {
        return None;
    }
    Some((part, &part[end..]))
}

// The length of the mark that is dropped from the front of `name`: a `_` before a `$`.
fn mark_len(name: &[u8]) -> usize
    ensures within { result ≤ length name.now }
    ensures value { name_chars name.now ≡ chars_left (drop result name.now) }
{
    if name.starts_with(b"_$") { 1 } else { 0 }
}

// Writes the piece that `name` begins with, and returns the piece's length.
fn push_piece(text: &mut String, name: &str) -> Result<usize, AllocError>
    requires ascii { IsAscii name.now }
    requires some { 0 < length name.now }
    requires special { is_plain (slice_index name.now 0) ≡ false }
    ensures len { IfOk result (λ len. len ≡ (first_piece name.now).len) }
    ensures within { IfOk result (λ len. (0 < len) × (len ≤ length name.now)) }
    ensures bytes { OnOk result (string_bytes text.new
        ≡ string_bytes text.old ++ encode_utf8_all (first_piece name.now).chars) }
    ensures grows { Grows (string_bytes text.old) (string_bytes text.new) }
{
    let bytes = name.as_bytes();
    if bytes.starts_with(b"..") {
        text.push_str("::")?;
        return Ok(2);
    }
    if bytes[0] == b'.' {
        text.push('.')?;
        return Ok(1);
    }
    match escape(bytes) {
        Some((c, len)) => {
            text.push(c)?;
            Ok(len)
        }
        None => {
            text.push_str(name)?;
            Ok(name.len())
        }
    }
}

// Writes bytes that denote themselves. Where there are none, as between two escapes, it calls nothing.
#[inline(always)]
fn push_run(text: &mut String, run: &str) -> Result<(), AllocError>
    ensures bytes { OnOk result (string_bytes text.new ≡ string_bytes text.old ++ run.now) }
    ensures grows { Grows (string_bytes text.old) (string_bytes text.new) }
{
    if run.is_empty() {
        return Ok(());
    }
    text.push_str(run)
}

// Writes an element's name in readable form. `wide` begins with the name.
fn push_name(text: &mut String, name: &str, wide: &[u8]) -> Result<(), AllocError>
    requires ascii { IsAscii name.now }
    requires wide { name.now ≡ take (length name.now) wide.now }
    ensures bytes { OnOk result (string_bytes text.new
        ≡ string_bytes text.old ++ encode_utf8_all (name_chars name.now)) }
    ensures grows { Grows (string_bytes text.old) (string_bytes text.new) }
{
    let bytes = name.as_bytes();
    let mut at = mark_len(bytes);
    while at < name.len() {
        let special = plain_end(bytes, wide, at);
        push_run(text, &name[at..special])?;
        if special == name.len() {
            return Ok(());
        }
        at = special + push_piece(text, &name[special..])?;
    }
    Ok(())
}

// Whether an element's name is, byte for byte, the last part of a path: the elements end where the name ends, at `end`,
// and it has no mark.
#[inline(always)]
fn is_last_part(part: &[u8], name: &[u8], end: usize) -> bool
    ensures { IsTrue result → (slice_index part.now end ≡ 69) × (list_any is_mark name.now ≡ false) }
{
    end < part.len() && part[end] == b'E' && !has_mark(name)
}

// Appends the path of a mangling to the text; `part` is what follows its prefix. If `trimmed`, the last part is left
// out where it is, byte for byte, the name of the last element, and not the first. Returns whether it was left out.
fn push_path(text: &mut String, part: &str, trimmed: bool) -> Result<bool, AllocError>
    requires { IsAscii part.now }
    ensures bytes { IfOk result (λ left_out. (elements : List Element) (rest : List ℕ)
        → Reads part.now elements rest
        → string_bytes text.new ≡ string_bytes text.old ++ encode_utf8_all (path_chars left_out elements)) }
    ensures asked { IfOk result (λ left_out. IsTrue left_out → IsTrue trimmed) }
    ensures grows { Grows (string_bytes text.old) (string_bytes text.new) }
{
    let bytes = part.as_bytes();
    let mut at = 0;
    while let Some((start, end)) = element(bytes, at) {
        let name = &part[start..end];
        if at > 0 {
            if trimmed && is_last_part(bytes, name.as_bytes(), end) {
                return Ok(true);
            }
            text.push_str("::")?;
        }
        push_name(text, name, &bytes[start..])?;
        at = end;
    }
    Ok(false)
}

/// The readable text of a mangling; `part` is what follows its prefix. The only error is a failed allocation.
pub fn complete(alloc: Global, part: &str) -> Result<String, AllocError>
    requires { IsAscii part.now }
    ensures { IfOk result (λ text. (elements : List Element) (rest : List ℕ)
        → Reads part.now elements rest → string_bytes text ≡ encode_utf8_all (legacy_chars elements)) }
{
    let mut text = String::with_capacity(alloc, part.len())?;
    let _ = push_path(&mut text, part, false)?;
    Ok(text)
}

/// Appends the beginning of a mangling's readable text to `text`: the first element's name in readable form, and `::`
/// if another element follows. If the name begins with an escaped `<`, only that `<` is written. `part` is what
/// follows the prefix. The only error is a failed allocation.
pub fn push_front(text: &mut String, part: &str) -> Result<(), AllocError>
    requires { IsAscii part.now }
    ensures front { OnOk result ((elements : List Element) (rest : List ℕ) → Reads part.now elements rest
        → (front : List ℕ) × (string_bytes text.new ≡ string_bytes text.old ++ front)
        × IsFront front (encode_utf8_all (legacy_chars elements))) }
    ensures grows { Grows (string_bytes text.old) (string_bytes text.new) }
{
    let bytes = part.as_bytes();
    let Some((start, end)) = element(bytes, 0) else {
        return Ok(());
    };
    let first = &part[start..end];
    if first.as_bytes().starts_with(b"_$LT$") {
        return text.push_str("<");
    }
    push_name(text, first, &bytes[start..])?;
    let Some(_) = element(bytes, end) else {
        return Ok(());
    };
    text.push_str("::")
}

/// Appends the readable text of a mangling, without its last part, to `text`. The only error is a failed allocation;
/// `text` is then unchanged.
pub fn push_trimmed(text: &mut String, part: &str) -> Result<(), AllocError>
    requires { IsAscii part.now }
    ensures bytes { OnOk result ((elements : List Element) (rest : List ℕ)
        → Reads part.now elements rest
        → string_bytes text.new
        ≡ string_bytes text.old ++ encode_utf8_all (without_last_part (legacy_chars elements))) }
    ensures unchanged { OnErr result (string_bytes text.new ≡ string_bytes text.old) }
{
    let start = text.as_str().len();
    match push_path(text, part, true) {
        Ok(true) => Ok(()),
        Ok(false) => {
            let kept = without_last_part(&text.as_str()[start..]).len();
            text.truncate(start + kept);
            Ok(())
        }
        Err(refused) => {
            text.truncate(start);
            Err(refused)
        }
    }
}

// `complete` without its last part, whether or not that is a hash: up to the character before its last `:`, or all of
// it if there is no `:`. Nothing is copied.
fn without_last_part(complete: &str) -> &str
    ensures front { result.now ≡ take (length result.now) complete.now }
    ensures text { (chars : List ℕ) → complete.now ≡ encode_utf8_all chars
        → result.now ≡ encode_utf8_all (without_last_part chars) }
{
    match complete.rfind(':') {
        None => complete,
        Some(colon) => {
            let mut front = complete[..colon].chars();
            let _ = front.next_back();
            front.as_str()
        }
    }
}

/// A copy of `complete` without its last part. The only error is a failed allocation.
pub fn trimmed(alloc: Global, complete: &str) -> Result<String, AllocError>
    ensures { IfOk result (λ text. (chars : List ℕ)
        → complete.now ≡ encode_utf8_all chars → string_bytes text ≡ encode_utf8_all (without_last_part chars)) }
{
    String::from_str(alloc, without_last_part(complete))
}
