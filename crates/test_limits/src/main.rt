//! Answers what is said of limits: `stdin` has the questions, a line each, and `stdout` each question before its answer.
//!
//! A question has three parts, with ` | ` between them: `size` or `diff`; a text with limits; and rows, which are names and
//! what is counted for them, as `core=10` or of two files `core=8:10`, with `;` between them. In the text `\n`, `\t` and
//! `\\` are a line feed, a tab and a backslash. A line that begins with `#` is a remark.
#![tactic(auto)]

use binfarce_limits::excess::Counted;
use binfarce_limits::reading::read_limits;
use binfarce_limits::rows::{Finding, Rows, are_above, judge};
use std::alloc::{AllocError, Global};
use std::collections::BTreeMap;
use std::io::{self, Error, ErrorKind, Read, Write};
use std::process::ExitCode;
use std::str::from_utf8;

fn main(rt: HostRuntime) -> ExitCode {
    match run(rt.alloc(), &mut rt.stdin(), &mut io::writer(&rt)) {
        Ok(()) => ExitCode::SUCCESS,
        Err(e) => {
            let _ = println!(rt; "{e}");
            ExitCode::FAILURE
        }
    }
}

/// Writes the answers to all questions that the reader gives.
///
/// # Errors
///
/// `InvalidData` if a line is no question; the answers to those before were written. The other errors are those of the
/// reader, of the writer, and of a failed allocation.
pub fn run<R: Read, W: Write>(alloc: Global, input: &mut R, output: &mut W) -> io::Result<()> {
    let mut bytes = Vec::new(alloc);
    input.read_to_end(&mut bytes)?;
    let Ok(lines) = from_utf8(bytes.as_slice()) else {
        return Err(Error::from(ErrorKind::InvalidData));
    };
    for line in lines.lines() {
        if !line.is_empty() && !line.starts_with('#') {
            let answer = answer_of(alloc, line)?;
            output.write_all(answer.as_str().as_bytes())?;
        }
    }
    Ok(())
}

// The question, and the lines that answer it.
fn answer_of(alloc: Global, line: &str) -> io::Result<String> {
    let Some((command, rest)) = line.split_once(" | ") else {
        return Err(Error::from(ErrorKind::InvalidData));
    };
    let Some((limits, rows)) = rest.split_once(" | ") else {
        return Err(Error::from(ErrorKind::InvalidData));
    };
    let mut answer = format!(in alloc; "{line}\n")?;
    let text = unescaped(alloc, limits)?;
    let limits = match read_limits(alloc, text.as_str(), command == "diff") {
        Ok(limits) => limits,
        Err(unread) => {
            answer.push_str("  ")?;
            write!(answer, "{unread}\n")?;
            return Ok(answer);
        }
    };
    let rows = Given(rows_of(alloc, rows)?);
    let found = judge(alloc, limits.as_slice(), &rows)?;
    push_found(&mut answer, found.as_slice())?;
    Ok(answer)
}

// Appends what is said, and whether a row is above its limit.
fn push_found(answer: &mut String, found: &[Finding]) -> io::Result<()> {
    for finding in found {
        answer.push_str("  ")?;
        write!(answer, "{finding}\n")?;
    }
    answer.push_str(if are_above(found) {
        "  above\n"
    } else {
        "  within\n"
    })?;
    Ok(())
}

// The text with `\n`, `\t` and `\\` as characters.
fn unescaped(alloc: Global, text: &str) -> io::Result<String> {
    let mut plain = String::new(alloc);
    let mut is_escape = false;
    for c in text.chars() {
        match c {
            'n' if is_escape => plain.push('\n')?,
            't' if is_escape => plain.push('\t')?,
            '\\' if !is_escape => {}
            _ => plain.push(c)?,
        }
        is_escape = c == '\\' && !is_escape;
    }
    Ok(plain)
}

// What is counted for rows.
#[derive(Drop)]
struct Given<'a>(BTreeMap<&'a str, Counted>);

impl Rows for Given<'_> {
    ghost use Rattle.std.specs.BTreeMap.{get_by};
    ghost use Rattle.std.specs.Cmp.Lexicographic.{slice_cmp};
    ghost use Rattle.std.specs.Ordering.{nat_cmp};

    ghost counted = { λ rows name. get_by (λ k. slice_cmp nat_cmp name k.now) rows.0 };

    fn counted(&self, name: &str) -> Option<Counted> {
        match self.0.get(name) {
            Some(counted) => Some(*counted),
            None => None,
        }
    }
}

// The rows of a question.
fn rows_of<'a>(alloc: Global, text: &'a str) -> io::Result<BTreeMap<&'a str, Counted>> {
    let mut rows = BTreeMap::new(alloc);
    for row in text.split(';') {
        if let Some((name, counted)) = row.split_once('=') {
            let Some(counted) = counted_in(counted) else {
                return Err(Error::from(ErrorKind::InvalidData));
            };
            put(&mut rows, name, counted)?;
        }
    }
    Ok(rows)
}

fn put<'a>(
    rows: &mut BTreeMap<&'a str, Counted>,
    name: &'a str,
    counted: Counted,
) -> Result<(), AllocError> {
    let _ = rows.insert(name, counted)?;
    Ok(())
}

// What is counted: a size, or two sums.
fn counted_in(counted: &str) -> Option<Counted> {
    match counted.split_once(':') {
        Some((old, new)) => Some(Counted::Growth(
            old.parse::<u64>().ok()?,
            new.parse::<u64>().ok()?,
        )),
        None => Some(Counted::Size(counted.parse::<u64>().ok()?)),
    }
}
