//! Addresses as words, and the lines of the functions at addresses.

use crate::Asking;
use crate::words::{known, number, push_hex, push_number, push_words};
use binfarce_addresses::at::{Places, at, at_tables};
use binfarce_addresses::digits::push_offset;
use binfarce_addresses::names::Names;
use binfarce_addresses::stream::{StreamError, answer_lines, push_lines as push_lines_of};
use binfarce_addresses::{Counts, Lookup, parse_address};
use binfarce_logs::Module;
use binfarce_logs::annotate::{annotate_stream, push_annotated};
use binfarce_rows::address::{has_prefix, hex_number};
use binfarce_rows::json::Form;
use binfarce_tools::SymbolTable;
use binfarce_tools::list::Out;
use binfarce_tools::tables::{Selection, read};
use std::alloc::Global;
use std::cell::Cell;
use std::io::{self, ErrorKind, Read, Write};
use test_samples::elf::ELF64_LITTLE;
use test_samples::first_bytes;
use test_samples::interruptions::InterruptedSource;
use test_samples::streams::{Source, Target};

// The text between quotes.
fn quoted(words: &str) -> io::Result<&str> {
    let words = known(words.strip_prefix('"'))?;
    known(words.strip_suffix('"'))
}

/// Adds the address that a word writes.
pub(crate) fn push_address(words: &str, text: &mut Vec<u8>) -> io::Result<()> {
    match parse_address(quoted(words)?.as_bytes()) {
        Some(address) => push_hex(text, address),
        None => push_words(text, "none"),
    }
}

// How addresses are looked up: by no base (`-`), or by a base, and after a colon where the file says that it is loaded.
fn lookup_of(words: &str, is_return: bool) -> io::Result<Lookup<'static>> {
    let (base, linked) = words.split_once(':').unwrap_or((words, "0"));
    Ok(Lookup {
        base: if base == "-" {
            None
        } else {
            Some(number(base, true)?)
        },
        linked: number(linked, true)?,
        size: None,
        origin: number(linked, true)?,
        is_return,
        form: Form::Lines,
        path: b"app",
    })
}

/// Adds what a number finds in a file that is at 400000 and has its origin at 1000: as an address, and as an offset after
/// the file's name.
pub(crate) fn push_found(alloc: Global, words: &str, text: &mut Vec<u8>) -> io::Result<()> {
    let Ok(places) = Places::of_file(alloc, &ELF64_LITTLE, ".text") else {
        return push_words(text, "no places");
    };
    let mut lookup = lookup_of("400000", false)?;
    lookup.origin = 0x1000;
    let mut names = Names::with_room(alloc, &places, lookup)?;
    push_found_by(&mut names, words.as_bytes(), text)
}

fn push_found_by(names: &mut Names<'_, '_>, word: &[u8], text: &mut Vec<u8>) -> io::Result<()> {
    let digits = if has_prefix(word) { &word[2..] } else { word };
    let number = known(hex_number(digits))?;
    push_place(names, number, false, text)?;
    push_place(names, number, true, text)
}

// Adds what a number finds as an address, or as an offset after the file's path.
fn push_place(
    names: &mut Names<'_, '_>,
    number: u64,
    is_offset: bool,
    text: &mut Vec<u8>,
) -> io::Result<()> {
    text.extend_from_slice(names.path())?;
    let found = if is_offset {
        names.find_offset(number)
    } else {
        names.find_address(number)
    };
    match found {
        Some((place, offset)) => {
            push_words(text, ": ")?;
            names.push_name(text, place)?;
            push_offset(text, offset, b' ')?;
            Ok(())
        }
        None => push_words(text, ": none "),
    }
}

/// Adds the lines of addresses by a base, from a file's bytes, and from the tables that are read of it.
pub(crate) fn push_lines(of: &Asking<'_>, is_return: bool, text: &mut Vec<u8>) -> io::Result<()> {
    let (base, words) = of.words.split_once(' ').unwrap_or((of.words, ""));
    let lookup = lookup_of(base, is_return)?;
    let addresses = addresses_of(of.alloc, words)?;
    push_lines_at(of, lookup, &addresses, text)
}

fn addresses_of(alloc: Global, words: &str) -> io::Result<Vec<u64>> {
    let mut addresses = Vec::new(alloc);
    for word in words.split_whitespace() {
        addresses.push(number(word, true)?)?;
    }
    Ok(addresses)
}

fn push_lines_at(
    of: &Asking<'_>,
    lookup: Lookup<'_>,
    addresses: &[u64],
    text: &mut Vec<u8>,
) -> io::Result<()> {
    let mut out = Out::new(Vec::new(of.alloc));
    let ended = at(of.alloc, of.file, ".text", lookup, addresses, &mut out);
    let written = out.into_inner();
    text.extend_from_slice(&written)?;
    if let Err(e) = ended {
        return write!(text, "{e}");
    }
    if lines_of_tables(of, lookup, addresses) != written {
        push_words(text, "otherwise from tables")?;
    }
    Ok(())
}

// The lines from the tables that are read of a file, or a beginning of them.
fn lines_of_tables(of: &Asking<'_>, lookup: Lookup<'_>, addresses: &[u64]) -> Vec<u8> {
    let mut out = Out::new(Vec::new(of.alloc));
    let selection = Selection::Section(".text");
    if let Ok(tables) = read(of.alloc, &of.file, &mut (), SymbolTable::Symtab, selection) {
        let _ = at_tables(of.alloc, &tables, lookup, addresses, &mut out);
    }
    out.into_inner()
}

// The text of a question, in which `/` is a line feed, `^` a carriage return, `~` a tab and `|` a slash.
fn typed(alloc: Global, words: &str) -> io::Result<Vec<u8>> {
    let mut text = Vec::new(alloc);
    for byte in words.bytes() {
        text.push(match byte {
            b'/' => b'\n',
            b'^' => b'\r',
            b'~' => b'\t',
            b'|' => b'/',
            _ => byte,
        })?;
    }
    Ok(text)
}

// A text, how its addresses are looked up, and where: the lines are addresses, or addresses within it are annotated.
#[derive(Clone, Copy)]
struct Input<'a> {
    alloc: Global,
    places: &'a Places<'static>,
    lookup: Lookup<'a>,
    annotates: bool,
    is_bare: bool,
    text: &'a [u8],
}

/// Adds the answers to a text of addresses by the 64-bit sample, how many lines have none, and which way of reading or
/// writing gives others.
pub(crate) fn push_answers(
    alloc: Global,
    words: &str,
    is_return: bool,
    text: &mut Vec<u8>,
) -> io::Result<()> {
    let (base, words) = known(words.split_once(' '))?;
    let lookup = lookup_of(base, is_return)?;
    let lines = typed(alloc, quoted(words)?)?;
    let Ok(places) = Places::of_file(alloc, &ELF64_LITTLE, ".text") else {
        return known(None);
    };
    let input = Input {
        alloc,
        places: &places,
        lookup,
        annotates: false,
        is_bare: false,
        text: &lines,
    };
    push_answers_to(&input, text)
}

fn push_answers_to(input: &Input<'_>, text: &mut Vec<u8>) -> io::Result<()> {
    let target = Target::taking(input.alloc, usize::MAX);
    let (ended, answers) = answered(input, Source::of(input.text), target);
    let Ok(counts) = ended else {
        return known(None);
    };
    text.extend_from_slice(&answers)?;
    push_number(text, counts.missing)?;
    push_words(text, "missing")?;
    push_differences(input, &answers, counts, text)?;
    if !are_parts_answered(input, &answers, counts)? {
        push_words(text, ", but not in parts")?;
    }
    Ok(())
}

// Adds which way of reading or writing gives other answers.
fn push_differences(
    input: &Input<'_>,
    answers: &[u8],
    counts: Counts,
    text: &mut Vec<u8>,
) -> io::Result<()> {
    if !are_short_calls_answered(input, answers, counts) {
        push_words(text, ", but not by short calls")?;
    }
    if !are_failed_calls_reported(input, answers)? {
        push_words(text, ", but not where calls fail")?;
    }
    Ok(())
}

/// Adds the text with its addresses annotated by the 64-bit sample, and which way of reading or writing gives another
/// one.
pub(crate) fn push_annotated_text(
    alloc: Global,
    words: &str,
    is_return: bool,
    is_bare: bool,
    text: &mut Vec<u8>,
) -> io::Result<()> {
    let (base, words) = known(words.split_once(' '))?;
    let lookup = lookup_of(base, is_return)?;
    let lines = typed(alloc, quoted(words)?)?;
    let Ok(places) = Places::of_file(alloc, &ELF64_LITTLE, ".text") else {
        return known(None);
    };
    let input = Input {
        alloc,
        places: &places,
        lookup,
        annotates: true,
        is_bare,
        text: &lines,
    };
    push_annotated_input(&input, text)
}

fn push_annotated_input(input: &Input<'_>, text: &mut Vec<u8>) -> io::Result<()> {
    let start = text.len();
    let counts = push_annotated(
        input.alloc,
        &[input.module()],
        input.is_bare,
        input.text,
        text,
    )?;
    let answers = Vec::from_slice(input.alloc, text.get(start..).unwrap_or(&[]))?;
    push_differences(input, &answers, counts, text)
}

impl<'a> Input<'a> {
    fn module(&self) -> Module<'a> {
        Module {
            places: self.places,
            lookup: self.lookup,
        }
    }
}

// The result for what a reader gives, and the output that a writer takes.
fn answered<R: Read + Drop>(
    input: &Input<'_>,
    reader: R,
    target: Target,
) -> (Result<Counts, StreamError>, Vec<u8>) {
    let mut reader = reader;
    let mut out = Out::new(target);
    let (alloc, places, lookup) = (input.alloc, input.places, input.lookup);
    let ended = if input.annotates {
        annotate_stream(
            alloc,
            &[input.module()],
            input.is_bare,
            &mut reader,
            &mut out,
        )
    } else {
        answer_lines(alloc, places, lookup, &mut reader, &mut out)
    };
    (ended, out.into_inner().taken)
}

// Reads and writes of every length, of which most end within a line, and interrupted reads, which are tried again.
fn are_short_calls_answered(input: &Input<'_>, answers: &[u8], counts: Counts) -> bool {
    for most in 1..=input.text.len() {
        let source = Source {
            most,
            ..Source::of(input.text)
        };
        let (ended, taken) = answered(input, source, Target::taking(input.alloc, most));
        if ended != Ok(counts) || taken.as_slice() != answers {
            return false;
        }
    }
    let unflushed = Cell::new(0);
    let source = InterruptedSource::of(input.text, &unflushed);
    let (ended, taken) = answered(input, source, Target::taking(input.alloc, usize::MAX));
    ended == Ok(counts) && taken.as_slice() == answers
}

fn whole_lines(text: &[u8]) -> usize {
    text.iter().filter(|byte| **byte == b'\n').count()
}

// Whether this is the output of a reader that gives these bytes and then fails: the whole lines are answered, and no
// part of one; or all is annotated.
fn is_first(input: &Input<'_>, came: &[u8], answers: &[u8], taken: &[u8]) -> io::Result<bool> {
    if input.annotates {
        let mut all = Vec::new(input.alloc);
        push_annotated(
            input.alloc,
            &[input.module()],
            input.is_bare,
            came,
            &mut all,
        )?;
        return Ok(all.as_slice() == taken);
    }
    Ok(answers.starts_with(taken) && whole_lines(taken) == whole_lines(came))
}

// If the reader fails, what came before is answered. If the writer takes no more bytes or fails, those before were
// written.
fn are_failed_calls_reported(input: &Input<'_>, answers: &[u8]) -> io::Result<bool> {
    for came in 0..=input.text.len() {
        let part = first_bytes(input.text, came);
        let source = Source {
            end: Some(ErrorKind::Other),
            ..Source::of(part)
        };
        let (ended, taken) = answered(input, source, Target::taking(input.alloc, usize::MAX));
        if ended != Err(StreamError::Read) || !is_first(input, part, answers, &taken)? {
            return Ok(false);
        }
    }
    for left in 0..answers.len() {
        for end in [None, Some(ErrorKind::BrokenPipe)] {
            let target = Target {
                left,
                end,
                ..Target::taking(input.alloc, usize::MAX)
            };
            let (ended, taken) = answered(input, Source::of(input.text), target);
            if ended != Err(StreamError::Write) || taken.as_slice() != first_bytes(answers, left) {
                return Ok(false);
            }
        }
    }
    Ok(true)
}

// A text in two parts is answered as in one, whatever the parts are. A last line without a line feed waits for it.
fn are_parts_answered(input: &Input<'_>, answers: &[u8], counts: Counts) -> io::Result<bool> {
    if input.text.last() != Some(&b'\n') {
        return Ok(true);
    }
    for at in 0..=input.text.len() {
        let mut text = Vec::new(input.alloc);
        let part = first_bytes(input.text, at);
        let first = push_lines_of(input.alloc, input.places, input.lookup, part, &mut text)?;
        let rest = input.text.get(first.len..).unwrap_or(&[]);
        let second = push_lines_of(input.alloc, input.places, input.lookup, rest, &mut text)?;
        if second.len != rest.len()
            || sum(first.counts, second.counts) != Some(counts)
            || text.as_slice() != answers
        {
            return Ok(false);
        }
    }
    Ok(true)
}

fn sum(first: Counts, second: Counts) -> Option<Counts> {
    Some(Counts {
        asked: first.asked.checked_add(second.asked)?,
        found: first.found.checked_add(second.found)?,
        unclear: first.unclear.checked_add(second.unclear)?,
        missing: first.missing.checked_add(second.missing)?,
    })
}
