//! The words of questions and answers.

use binfarce_sections::error::SectionError;
use std::alloc::Global;
use std::io::{self, Error, ErrorKind, Write};

/// What a question says, or the error for what isn't understood.
pub(crate) fn known<T>(value: Option<T>) -> io::Result<T> {
    value.ok_or(Error::from(ErrorKind::InvalidInput))
}

/// A number, which is hexadecimal or decimal.
pub(crate) fn number(word: &str, is_hex: bool) -> io::Result<u64> {
    if is_hex {
        known(u64::from_str_radix(word, 16).ok())
    } else {
        known(word.parse().ok())
    }
}

/// Numbers, or pairs of them with a `+` between.
pub(crate) fn numbers(alloc: Global, words: &str, is_hex: bool) -> io::Result<Vec<(u64, u64)>> {
    let mut all = Vec::new(alloc);
    for word in words.split_whitespace() {
        let (first, second) = word.split_once('+').unwrap_or((word, "0"));
        all.push((number(first, is_hex)?, number(second, is_hex)?))?;
    }
    Ok(all)
}

pub(crate) fn push_words(text: &mut Vec<u8>, words: &str) -> io::Result<()> {
    text.extend_from_slice(words.as_bytes())?;
    Ok(())
}

pub(crate) fn push_number(text: &mut Vec<u8>, number: u64) -> io::Result<()> {
    write!(text, "{number} ")
}

pub(crate) fn push_hex(text: &mut Vec<u8>, number: u64) -> io::Result<()> {
    write!(text, "{number:x} ")
}

/// Ends the line of an answer that begins at this index, without a blank at its end.
pub(crate) fn end_line(text: &mut Vec<u8>, start: usize) -> io::Result<()> {
    if text.last() == Some(&b' ') {
        let _ = text.pop();
    }
    if text.len() == start || text.last() != Some(&b'\n') {
        text.push(b'\n')?;
    }
    Ok(())
}

/// How a call ends: in these words, or in those of the error.
pub(crate) fn words_of(
    alloc: Global,
    ended: &Result<(), SectionError>,
    words: &str,
) -> io::Result<Vec<u8>> {
    let mut all = Vec::new(alloc);
    match ended {
        Ok(()) => push_words(&mut all, words)?,
        Err(e) => write!(all, "{e}")?,
    }
    Ok(all)
}

/// Adds what is found for each number below a count: where that changes, the number and the words.
pub(crate) fn push_runs<F: Fn(usize) -> io::Result<Vec<u8>> + Drop>(
    alloc: Global,
    text: &mut Vec<u8>,
    count: usize,
    find: F,
) -> io::Result<()>
    requires { F.IsAlwaysCallable find }
{
    let mut last = Vec::new(alloc);
    for number in 0..count {
        let words = find(number)?;
        if words != last {
            push_words(text, if last.is_empty() { "" } else { ", " })?;
            push_number(text, number as u64)?;
            text.extend_from_slice(&words)?;
            last = words;
        }
    }
    Ok(())
}
