//! Texts that are filtered as they come, by readers and writers that are short or fail.

use binfarce_filtering::stream::{StreamError, filter_stream};
use std::alloc::Global;
use std::cell::Cell;
use std::io::{self, Error, ErrorKind};
use test_samples::interruptions::{InterruptedSource, InterruptedTarget};
use test_samples::streams::{Source, Target};

// How it ends that what the source gives is filtered, and what the writer has taken.
fn filtered(
    alloc: Global,
    source: Source<'_>,
    target: Target,
) -> (Result<(), StreamError>, Vec<u8>) {
    let (mut source, mut target) = (source, target);
    let ended = filter_stream(alloc, false, &mut source, &mut target);
    (ended, target.taken)
}

/// Appends what is shown of a text that comes whole, or `unchanged`; of one of up to 1,000 bytes also if short,
/// interrupted and failed calls give something else.
pub fn push_streamed(alloc: Global, line: &mut String, text: &[u8]) -> io::Result<()> {
    let whole = Target::taking(alloc, usize::MAX);
    let (ended, shown) = filtered(alloc, Source::of(text), whole);
    if ended.is_err() || shown.as_slice() == text {
        line.push_str(if ended.is_ok() {
            "unchanged"
        } else {
            "refused"
        })?;
    } else {
        push_shown(line, &shown)?;
    }
    if text.len() > 1000 {
        return Ok(());
    }
    if !are_short_calls_the_same(alloc, text, &shown) {
        line.push_str(", but not by short calls")?;
    }
    if !are_interrupted_calls_the_same(alloc, text, &shown) {
        line.push_str(", but not by interrupted calls")?;
    }
    if !are_failed_writes_reported(alloc, text, &shown)
        || !are_failed_flushes_reported(alloc, text)
    {
        line.push_str(", but not where writes fail")?;
    }
    Ok(())
}

/// Appends what is shown of a text behind which the reader fails: what came is filtered as if it ended there.
pub fn push_failed(alloc: Global, line: &mut String, text: &[u8]) -> io::Result<()> {
    let mut source = Source::of(text);
    source.end = Some(ErrorKind::Other);
    let (ended, shown) = filtered(alloc, source, Target::taking(alloc, usize::MAX));
    push_shown(line, &shown)?;
    Ok(write!(line, ", then {ended:?}")?)
}

fn push_shown(line: &mut String, shown: &[u8]) -> io::Result<()> {
    match std::str::from_utf8(shown) {
        Ok(shown) => Ok(line.push_str(shown)?),
        Err(_) => Err(Error::from(ErrorKind::InvalidData)),
    }
}

// Reads and writes of every length.
fn are_short_calls_the_same(alloc: Global, text: &[u8], shown: &[u8]) -> bool {
    for most in 1..text.len() + 1 {
        let mut source = Source::of(text);
        source.most = most;
        let (ended, taken) = filtered(alloc, source, Target::taking(alloc, most));
        if ended != Ok(()) || taken.as_slice() != shown {
            return false;
        }
    }
    true
}

// A writer that takes so many bytes and then 0, or fails.
fn are_failed_writes_reported(alloc: Global, text: &[u8], shown: &[u8]) -> bool {
    for left in 0..shown.len() {
        for end in [None, Some(ErrorKind::BrokenPipe)] {
            let mut target = Target::taking(alloc, usize::MAX);
            target.left = left;
            target.end = end;
            let (ended, taken) = filtered(alloc, Source::of(text), target);
            if ended != Err(StreamError::Write) || taken.as_slice() != &shown[..left] {
                return false;
            }
        }
    }
    true
}

// Interrupted reads and writes are tried again, and the output is flushed before each read and at the end.
fn are_interrupted_calls_the_same(alloc: Global, text: &[u8], shown: &[u8]) -> bool {
    let unflushed = Cell::new(0);
    let mut source = InterruptedSource::of(text, &unflushed);
    let mut target = InterruptedTarget {
        target: Target::taking(alloc, 1),
        was_interrupted: false,
        unflushed: &unflushed,
        flush_error: None,
    };
    let ended = filter_stream(alloc, false, &mut source, &mut target);
    let is_flushed = !source.came_early && unflushed.get() == 0;
    ended == Ok(()) && target.target.taken.as_slice() == shown && is_flushed
}

// A failed flush is a failed write, also if nothing is written.
fn are_failed_flushes_reported(alloc: Global, text: &[u8]) -> bool {
    let unflushed = Cell::new(0);
    let mut source = Source::of(text);
    let mut target = InterruptedTarget {
        target: Target::taking(alloc, usize::MAX),
        was_interrupted: true,
        unflushed: &unflushed,
        flush_error: Some(ErrorKind::Other),
    };
    filter_stream(alloc, false, &mut source, &mut target) == Err(StreamError::Write)
}
