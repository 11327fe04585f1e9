//! The line by which Linux reports a fault of a program.

ghost use Rattle.std.specs.Prelude.{◌≡◌};
ghost use Rattle.std.specs.Option.{option_map};
ghost use Rattle.binfarce_logs.specs.Faults.{behind_mark, fault_behind, fault_in, in_brackets, in_range, named_fault, placed_by};

use crate::maps::{Mapping, before_blank, behind, len_before};
use binfarce_rows::address::hex_number;

// What the line of a fault says: the mapping of the code, and the name of its file.
pub(crate) fn fault_in(line: &[u8]) -> Option<(Mapping, &[u8])>
    ensures { option_map (λ m. (m.0, m.1.now)) result ≡ fault_in line.now }
{
    match behind_mark(b" ip ", line) {
        Some(text) => fault_behind(text),
        None => fault_behind(behind_mark(b" ip:", line)?),
    }
}

// What it says in this text, which begins with the address.
fn fault_behind(text: &[u8]) -> Option<(Mapping, &[u8])>
    ensures { option_map (λ m. (m.0, m.1.now)) result ≡ fault_behind text.now }
{
    let address = hex_number(before_blank(text))?;
    named_fault(address, behind_mark(b" in ", text)?)
}

// The mapping of `NAME[..]`, and the name.
fn named_fault(address: u64, text: &[u8]) -> Option<(Mapping, &[u8])>
    ensures { option_map (λ m. (m.0, m.1.now)) result ≡ named_fault address text.now }
{
    let len = len_before(b'[', text);
    let inside = behind(len, text);
    let mapping = in_brackets(address, &inside[..len_before(b']', inside)])?;
    Some((mapping, &text[..len]))
}

// The mapping of `PLACE,START+SIZE`, or of `START+SIZE`.
fn in_brackets(address: u64, text: &[u8]) -> Option<Mapping>
    ensures { result ≡ in_brackets address text.now }
{
    if !text.contains(&b',') {
        return in_range(text, None);
    }
    let len = len_before(b',', text);
    let place = hex_number(&text[..len])?;
    in_range(behind(len, text), Some((address, place)))
}

// The mapping of a range `START+SIZE`, in which this address is, that has this offset in the file, if these are known.
fn in_range(range: &[u8], known: Option<(u64, u64)>) -> Option<Mapping>
    ensures { result ≡ in_range known range.now }
{
    let len = len_before(b'+', range);
    let start = hex_number(&range[..len])?;
    let size = hex_number(behind(len, range))?;
    match known {
        Some((address, place)) => placed_by(address, place, start, size),
        None => Some(Mapping {
            start,
            size,
            offset: 0,
            has_offset: false,
            is_code: true,
        }),
    }
}

// A mapping of code in which the address is, that has this offset in the file.
fn placed_by(address: u64, place: u64, start: u64, size: u64) -> Option<Mapping>
    ensures { result ≡ placed_by address place start size }
{
    let offset = place.checked_sub(address.checked_sub(start)?)?;
    Some(Mapping {
        start,
        size,
        offset,
        has_offset: true,
        is_code: true,
    })
}

// The text behind the first place where these bytes are.
fn behind_mark<'a>(mark: &[u8], text: &'a [u8]) -> Option<&'a [u8]>
    ensures { option_map (λ t. t.now) result ≡ behind_mark mark.now text.entry.now }
{
    for at in 0..text.len() {
        if text[at..].starts_with(mark) {
            return Some(&text[at + mark.len()..]);
        }
    }
    None
}
