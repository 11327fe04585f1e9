//! What no contract says: the printed lines, and that what can be read is read.

use crate::program::{Fault, run, run_file, status, words};
use binfarce_tools::list::Out;
use std::alloc::{AllocError, Global};
use std::io::{self, Error, ErrorKind, Read};

// A PE file: its stub, the file header, `.text` of 256 bytes, and the function symbol `a` at its start.
static FILE: [u8; 146] = *b"\
MZ\0\0\0\0\0\0\0\0\0\0\0\0\0\0\0\0\0\0\0\0\0\0\0\0\0\0\0\0\0\0\0\0\0\0\0\0\0\0\0\0\0\0\0\0\0\0\0\0\0\0\0\0\0\0\0\0\0\0\
@\0\0\0\0\0\0\0\0\0\x01\0\0\0\0\0\x80\0\0\0\x01\0\0\0\0\0\0\0.text\
\0\0\0\0\0\0\0\0\0\0\0\0\x01\0\0\0\0\0\0\0\0\0\0\0\0\0\0\0\0\0\0\0\0\0\0\
a\0\0\0\0\0\0\0\0\0\0\0\x01\0\x20\0\x02\0";

// A reader that fails.
#[derive(Drop)]
struct Failing(ErrorKind);

impl Read for Failing {
    fn read(&mut self, _buf: &mut [u8]) -> io::Result<usize> {
        Err(Error::from(self.0))
    }
}

// The words, or the printed line and the status.
fn given(alloc: Global, arguments: &[String]) -> Result<String, AllocError> {
    match words(arguments) {
        Ok((file, section)) => format!(in alloc; "{file} {section}"),
        Err(fault) => format!(in alloc; "{fault}, {}", status(&fault)),
    }
}

// What was written, the printed line and the status.
fn text_of(
    alloc: Global,
    ended: Result<(), Fault>,
    out: Out<Vec<u8>>,
) -> Result<String, AllocError> {
    let written = out.into_inner();
    let text = std::str::from_utf8(&written).unwrap_or("no text");
    match &ended {
        Ok(()) => String::from_str(alloc, text),
        Err(fault) => format!(in alloc; "{text}{fault}, {}", status(fault)),
    }
}

// The text of what `run` does.
fn read<R: Read>(alloc: Global, file: &mut R) -> Result<String, AllocError> {
    let mut out = Out::new(Vec::new(alloc));
    let ended = run(alloc, file, ".text", &mut out);
    text_of(alloc, ended, out)
}

#[test]
fn takes_a_file_and_a_section(rt: HostRuntime) -> Result<(), AllocError> {
    let alloc = rt.alloc();
    let usage = "usage: binfarce-size FILE [SECTION], 2";
    let mut arguments = Vec::new(alloc);
    for (word, wanted) in [
        ("a", usage),
        (".init", "a .text"),
        ("b", "a .init"),
        ("c", usage),
    ] {
        assert_eq!(&rt; given(alloc, &arguments)?.as_str(), wanted);
        arguments.push(String::from_str(alloc, word)?)?;
    }
    Ok(())
}

#[test]
fn reports_a_file_or_why_not(rt: HostRuntime) -> Result<(), AllocError> {
    let alloc = rt.alloc();
    let rows: [(&[u8], &str); 3] = [
        (&FILE, "       256 [unknown]\nsum 256\ntext 256\n"),
        (&[], "binfarce-size: unknown file format, 1"),
        (&FILE[..8], "binfarce-size: unexpected end of file, 1"),
    ];
    for (bytes, wanted) in rows {
        let mut file = bytes;
        assert_eq!(&rt; read(alloc, &mut file)?.as_str(), wanted);
        let mut file = bytes;
        let mut out = Out::new(Vec::new(alloc));
        let ended = run_file(alloc, &mut file, ".text", &mut out);
        assert_eq!(&rt; text_of(alloc, ended, out)?.as_str(), wanted);
    }
    let unread = read(alloc, &mut Failing(ErrorKind::Other))?;
    assert_eq!(&rt; unread.as_str(), "binfarce-size: cannot read file, 1");
    let exhausted = read(alloc, &mut Failing(ErrorKind::OutOfMemory))?;
    assert_eq!(&rt; exhausted.as_str(), "binfarce-size: out of memory, 1");
    Ok(())
}
