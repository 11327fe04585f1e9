//! What the programs share.

use binfarce_tools::program::{Failure, file_and_section, finish, read_whole};
use std::alloc::{AllocError, Global};
use std::io::{Error, ErrorKind};
use test_samples::streams::Source;

/// The file and the section that are given by these words between quotes.
pub fn given(alloc: Global, arguments: &str) -> Result<String, AllocError> {
    let text = arguments.trim_matches('"');
    let mut words = Vec::new(alloc);
    for word in text.split(' ') {
        if !text.is_empty() {
            words.push(String::from_str(alloc, word)?)?;
        }
    }
    let given = file_and_section(words.as_slice());
    format!(in alloc; "{given:?}")
}

/// How a file is read whose reader gives so many bytes, at most so many in a call, and then ends or fails:
/// `COUNT MOST`, and an error.
pub fn read(alloc: Global, words: &str) -> Result<String, AllocError> {
    let (count, rest) = words.split_once(' ').unwrap_or((words, ""));
    let (most, error) = rest.split_once(' ').unwrap_or((rest, ""));
    let bytes = counting(alloc, count.parse().unwrap_or(0))?;
    let mut source = Source {
        bytes: &bytes,
        most: most.parse().unwrap_or(0),
        end: error_of(error),
    };
    match read_whole(alloc, &mut source) {
        Ok(read) => format!(in alloc; "{}", read.as_slice() == bytes.as_slice()),
        Err(error) => format!(in alloc; "{error:?}"),
    }
}

fn error_of(word: &str) -> Option<ErrorKind> {
    match word {
        "" => None,
        "PermissionDenied" => Some(ErrorKind::PermissionDenied),
        "UnexpectedEof" => Some(ErrorKind::UnexpectedEof),
        "OutOfMemory" => Some(ErrorKind::OutOfMemory),
        _ => Some(ErrorKind::Other),
    }
}

// As many bytes, from 0 on.
fn counting(alloc: Global, count: usize) -> Result<Vec<u8>, AllocError> {
    let mut bytes = Vec::new(alloc);
    for i in 0..count {
        bytes.push((i % 251) as u8)?;
    }
    Ok(bytes)
}

/// What is reported of work that succeeds or fails, `Ok` or `File`, before a flush that does, `Ok` or `Err`.
pub fn finished(alloc: Global, words: &str) -> Result<String, AllocError> {
    let (work, flush) = words.split_once(' ').unwrap_or((words, ""));
    let ended = match work {
        "File" => Err(Failure::File),
        _ => Ok(()),
    };
    let flushed = match flush {
        "Err" => Err(Error::from(ErrorKind::BrokenPipe)),
        _ => Ok(()),
    };
    let finished = finish(flushed, ended);
    format!(in alloc; "{finished:?}")
}
