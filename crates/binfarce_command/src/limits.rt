//! Limits on rows, which a file has.

use crate::asked::read_file;
use crate::report::{report, say};
use binfarce_io::fault::Fault;
use binfarce_io::message::message_of;
use binfarce_limits::reading::{Unread, read_limits};
use binfarce_limits::rows::RowLimit;
use binfarce_sections::error::SectionError;
use binfarce_words::call::Call;
use binfarce_words::command::Command;
use binfarce_words::flag::Flag::Limits;
use std::str::from_utf8;

/// The file of limits that a call names: its path, and its bytes.
#[derive(Drop)]
pub struct LimitFile<'a> {
    path: &'a str,
    bytes: Vec<u8>,
}

/// The file of limits that a call names, with no path and no bytes if it names none. `None` if it can't be read, which
/// is reported.
pub fn read_limit_file<'a>(rt: &HostRuntime, call: &Call<'a>) -> Option<LimitFile<'a>> {
    let path = match call {
        Call::Run(_, given) => given.value(Limits),
        _ => None,
    };
    let Some(path) = path else {
        return Some(LimitFile {
            path: "",
            bytes: Vec::new(rt.alloc()),
        });
    };
    match read_file(rt, path) {
        Ok(bytes) => Some(LimitFile { path, bytes }),
        Err(e) => {
            let fault = Fault::Section(SectionError::Unreadable);
            report(rt, path, &message_of(rt.alloc(), fault, Some(e), None));
            None
        }
    }
}

/// The limits in a file, or the status of a call that they can't be read for, which is reported; so is that it has none.
pub fn limits_in<'a>(
    rt: &HostRuntime,
    call: &Call<'_>,
    file: &'a LimitFile<'_>,
) -> Result<Vec<RowLimit<'a>>, u8> {
    if file.path.is_empty() {
        return Ok(Vec::new(rt.alloc()));
    }
    let compares = matches!(call, Call::Run(Command::Diff, _));
    let Ok(text) = from_utf8(file.bytes.as_slice()) else {
        say(rt, Some(file.path), &Fault::NotUtf8);
        return Err(1);
    };
    match read_limits(rt.alloc(), text, compares) {
        Ok(limits) => {
            if limits.is_empty() {
                say(rt, Some(file.path), &"no limit is in it, so none is held");
            }
            Ok(limits)
        }
        Err(unread) => {
            say(rt, Some(file.path), &unread);
            match unread {
                Unread::OutOfMemory => Err(1),
                _ => Err(2),
            }
        }
    }
}
