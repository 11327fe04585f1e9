//! Which of several ranges of addresses is found at an address; and a part of bytes in memory.

use crate::words::{known, number, numbers, push_number, push_words};
use binfarce_addresses::ranges::{AddressRange, Ranges};
use binfarce_bytes::parser::to_index;
use binfarce_bytes::source::read_part;
use std::alloc::Global;
use std::io::{self, ErrorKind};

/// Adds the answer to a question.
pub(crate) fn answer(alloc: Global, verb: &str, words: &str, text: &mut Vec<u8>) -> io::Result<()> {
    match verb {
        "ranges" => push_places(alloc, words, text),
        "nested" => push_nested(alloc, words, text),
        "part" => push_part(alloc, words, text),
        _ => known(None),
    }
}

// At each of some addresses the place of the range that is found, of ranges `ADDRESS+SIZE`.
fn push_places(alloc: Global, words: &str, text: &mut Vec<u8>) -> io::Result<()> {
    let (words, addresses) = known(words.split_once(':'))?;
    let mut all = Vec::new(alloc);
    for (address, size) in numbers(alloc, words, true)?.iter() {
        all.push(AddressRange {
            address: *address,
            size: *size,
        })?;
    }
    let ranges = Ranges::new(alloc, &all)?;
    for word in addresses.split_whitespace() {
        match ranges.find(number(word, true)?) {
            Some(place) => push_number(text, place as u64)?,
            None => push_words(text, "- ")?,
        }
    }
    Ok(())
}

// Each of these many ranges lies within the one before it, and each address is behind the ends of all but a few. A walk
// from range to range would take more steps than a test has time for.
fn push_nested(alloc: Global, words: &str, text: &mut Vec<u8>) -> io::Result<()> {
    let count: u32 = known(words.parse().ok())?;
    let count = u64::from(count);
    let mut all = Vec::new(alloc);
    for k in 0..count {
        all.push(AddressRange {
            address: k,
            size: 2 * (count - k),
        })?;
    }
    let ranges = Ranges::new(alloc, &all)?;
    let mut found = 0u64;
    for k in 0..count {
        if ranges.find(2 * count - 1 - k) == Some(k as usize) {
            found = found.saturating_add(1);
        }
    }
    push_number(text, found)
}

const BYTES: &[u8] = &[1, 2, 3, 4];

// The bytes of a part.
fn push_part(alloc: Global, words: &str, text: &mut Vec<u8>) -> io::Result<()> {
    for (offset, size) in numbers(alloc, words, false)?.iter() {
        match read_part(alloc, &BYTES, &mut (), *offset, to_index(*size)) {
            Ok(part) => {
                for byte in &part {
                    push_number(text, u64::from(*byte))?;
                }
            }
            Err(e) if e.kind() == ErrorKind::UnexpectedEof => push_words(text, "past the end")?,
            Err(_) => push_words(text, "another error")?,
        }
    }
    Ok(())
}
