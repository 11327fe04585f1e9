//! Why a file is refused, in words and as an object.

ghost use Rattle.std.specs.Prelude.{◌≡◌, ◌++◌, ◌&&◌, IfOk, OnOk, encode_utf8_all, is_some};
ghost use Rattle.std.specs.Option.{option_map};
ghost use Rattle.std.specs.String.{string_bytes};
ghost use Rattle.binfarce_io.specs.FaultWords.{IsMessageFor, IsMessageOf, IsUnplaced, has_reason, lacked, refusal_object, unplaced_words};
ghost use Rattle.binfarce_io.specs.MessageLine.{byte_text, escaped, line_char, line_of};

use crate::fault::Fault;
use binfarce_bytes::ParseError;
use binfarce_rows::json::{push_start, push_text_member};
use binfarce_sections::error::SectionError;
use binfarce_text::digits::hex_digit;
use binfarce_tools::report::ReportError;
use std::alloc::{AllocError, Global};
use std::fmt;
use std::io::Error;

/// Why a file is refused, in words.
#[derive(Debug, Drop)]
pub enum Message {
    /// Its fault.
    Fault(Fault),
    /// Words: the system's reason, or that there is no section of a name.
    Words(String),
}

impl fmt::Display for Message {
    ghost use Rattle.std.specs.Prelude.{Some};
    ghost use Rattle.binfarce_io.specs.FaultWords.{message_words};

    ghost output = { λ m. Some (message_words m) };

    fn fmt<W: fmt::Write>(&self, f: &mut fmt::Formatter<W>) -> fmt::Result {
        match self {
            Message::Fault(fault) => write!(f, "{fault}"),
            Message::Words(words) => write!(f, "{words}"),
        }
    }
}

/// Why a file isn't placed.
#[derive(Debug, Clone, Copy, PartialEq)]
pub enum Unplaced<'a> {
    /// The maps have no file of this path, or of this name in it, if it has another.
    NotMapped(&'a str, Option<&'a str>),
    /// The file of this path has code, and the maps have neither this nor its first byte.
    NoCode(&'a str),
    /// The maps have the code of the file of this path at several addresses.
    Several(&'a str),
    /// It states no code segment with bytes, in which offsets would be.
    NoBytes,
}

impl<'a> fmt::Display for Unplaced<'a> {
    ghost use Rattle.std.specs.Prelude.{Some};
    ghost use Rattle.binfarce_io.specs.FaultWords.{unplaced_words};

    ghost output = { λ u. Some (unplaced_words u) };

    fn fmt<W: fmt::Write>(&self, f: &mut fmt::Formatter<W>) -> fmt::Result {
        match self {
            Unplaced::NotMapped(path, None) => write!(
                f,
                "the maps have no file {path}; --as=NAME takes another name"
            ),
            Unplaced::NotMapped(path, Some(name)) => write!(
                f,
                "the maps have no file {path} or {name}; --as=NAME takes another name"
            ),
            Unplaced::NoCode(path) => write!(
                f,
                "the maps don't say where the code of {path} is; give --base, or more of the maps"
            ),
            Unplaced::Several(path) => write!(
                f,
                "{path} is at several addresses in the maps; give --base in place of --maps, or --as=PATH for one of several paths"
            ),
            Unplaced::NoBytes => write!(
                f,
                "no code segment with bytes; --offsets takes ELF programs and shared objects, and not their debug files"
            ),
        }
    }
}

/// The fault of a file that isn't placed: why in words, or that there is no memory for these.
pub fn unplaced_fault(alloc: Global, why: &Unplaced<'_>) -> Fault
    ensures { IsUnplaced (unplaced_words why.now) result }
{
    match format!(in alloc; "{why}") {
        Ok(words) => Fault::Unplaced(words),
        Err(e) => Fault::from(e),
    }
}

/// Why a file is refused: that it has no section of the name that is asked for; the system's reason, if a read or a
/// write failed; or that there is no memory for these words.
pub fn message_of(
    alloc: Global,
    fault: Fault,
    reason: Option<Error>,
    section: Option<&str>,
) -> Message
    ensures { IsMessageFor fault (option_map (λ s. s.now) section.entry) (is_some reason) result }
{
    match (section, lacked(&fault)) {
        (Some(name), Some(rest)) => match format!(in alloc; "no section {name}{rest}") {
            Ok(words) => Message::Words(words),
            Err(e) => Message::Fault(Fault::from(e)),
        },
        _ => reason_of(alloc, fault, reason),
    }
}

// What follows the name of a section that a file lacks for this fault. `None` if it lacks none.
fn lacked(fault: &Fault) -> Option<&'static str>
    ensures { option_map (λ t. t.now) result ≡ lacked fault.now }
{
    match fault {
        Fault::Section(SectionError::NoSection) => Some(""),
        Fault::Section(SectionError::Parse(ParseError::SymbolsSectionIsMissing))
        | Fault::Report(ReportError::Parse(ParseError::SymbolsSectionIsMissing)) => Some(
            "; binfarce section lists those of an ELF file; in others .text is the code",
        ),
        _ => None,
    }
}

// The system's reason for this fault, if there is one.
fn reason_of(alloc: Global, fault: Fault, reason: Option<Error>) -> Message
    ensures { IsMessageOf fault (is_some reason && has_reason fault) result }
{
    match reason {
        Some(e) if is_of_system(&fault) => match words_of(alloc, &e) {
            Ok(words) => Message::Words(words),
            Err(e) => Message::Fault(Fault::from(e)),
        },
        _ => Message::Fault(fault),
    }
}

// Whether the system has a reason for it: a failed read or write.
fn is_of_system(fault: &Fault) -> bool
    ensures { result ≡ has_reason fault.now }
{
    fault.is_write() || matches!(fault, Fault::Section(SectionError::Unreadable))
}

/// Appends the refusal of a file as an object.
pub fn push_refusal(text: &mut String, file: &str, message: &str) -> Result<(), AllocError>
    ensures { OnOk result
        (string_bytes text.new ≡ string_bytes text.old ++ refusal_object file.now message.now) }
{
    push_start(text, file)?;
    push_text_member(text, "error", Some(message))?;
    text.push_str("}\n")
}

/// The line on standard error that says these words, of the file at this path if there is one, without its line feed:
/// `binfarce: `, the path and `: `, and the words. In both each control character, U+0000 to U+001F and U+007F to
/// U+009F, is escaped as in JSON, as `\u000a`: none ends the line, or controls a terminal.
pub fn line_of(alloc: Global, path: Option<&str>, words: &str) -> Result<String, AllocError>
    ensures { IfOk result (λ line. string_bytes line ≡ line_of (option_map (λ p. p.now) path.entry) words.now) }
{
    let mut line = String::from_str(alloc, "binfarce: ")?;
    if let Some(path) = path {
        push_escaped(&mut line, path)?;
        line.push_str(": ")?;
    }
    push_escaped(&mut line, words)?;
    Ok(line)
}

/// Appends a text with its control characters escaped, as in messages.
pub fn push_escaped(line: &mut String, text: &str) -> Result<(), AllocError>
    ensures { OnOk result (string_bytes line.new ≡ string_bytes line.old ++ escaped text.now) }
{
    for c in text.chars() {
        push_char(line, c)?;
    }
    Ok(())
}

fn push_char(line: &mut String, c: char) -> Result<(), AllocError>
    ensures { OnOk result (string_bytes line.new ≡ string_bytes line.old ++ encode_utf8_all (line_char c)) }
{
    match c {
        '\0'..='\x1f' | '\x7f'..='\u{9f}' => {
            line.push_str("\\u00")?;
            push_byte(line, c as u8)
        }
        _ => line.push(c),
    }
}

/// Appends a byte in two hexadecimal digits.
pub fn push_byte(text: &mut String, byte: u8) -> Result<(), AllocError>
    ensures { OnOk result (string_bytes text.new ≡ string_bytes text.old ++ byte_text byte) }
{
    text.push(hex_digit(u64::from(byte) / 16) as char)?;
    text.push(hex_digit(u64::from(byte) % 16) as char)
}

// The system's message without the number that is printed after it.
fn words_of(alloc: Global, e: &Error) -> Result<String, AllocError> {
    let text = format!(in alloc; "{e}")?;
    match text.as_str().split_once(" (os error ") {
        Some((words, _)) => String::from_str(alloc, words),
        None => Ok(text),
    }
}
