//! Code that the programs share: for arguments, for the file that they read, and for their exit.

ghost use Rattle.std.specs.Prelude.{◌≡◌, ◌≢◌, ◌⊎◌, ℕ, List, [], Bool, true, false, map, Ok, Err, Some, None, MatchResult, IfSome, IfOk, IfErr, IsErrAnd};
ghost use Rattle.std.specs.IoError.{error_kind};
ghost use Rattle.std.specs.Process.{exit_status};
ghost use Rattle.std.specs.String.{string_bytes};
ghost use Rattle.binfarce_tools.specs.Given.{words_of, failure_of, read_failure_of, AreContentsOf, GetsContents};
ghost use Rattle.binfarce_tools.specs.SectionAnswer.{readers_answer};
ghost use Rattle.binfarce_tools.specs.Status.{status_of};
ghost use Rattle.binfarce_tools.specs.Tables.{ReadsAs};
ghost use Rattle.binfarce_tools.specs.declared.program.Failure.TheVariants.{Usage, File as Unreadable, OutOfMemory, Write as Unwritten};

use crate::tables::{Selection, Tables, read_tables};
use binfarce::{Format, ParseError, SymbolTable};
use binfarce_bytes::source::Source;
use binfarce_tables::format::read_format;
use binfarce_tables::{ReadError, part};
use std::alloc::Global;
use std::fs::File;
use std::io::{self, ErrorKind, Read};
use std::process::ExitCode;
use std::{env, fmt};

/// A failure that every program can have. A program's own fault is made of it.
#[derive(Debug, Clone, Copy, PartialEq)]
pub enum Failure {
    /// The arguments are wrong.
    Usage,
    /// The file can't be opened or read.
    File,
    /// The reader of the file's format refused it.
    Refused(ParseError),
    /// An allocation failed.
    OutOfMemory,
    /// A write failed.
    Write,
}

/// Why a program ended early. Its text is the printed line.
pub trait Fault: fmt::Display + From<Failure> {
    // The arguments are wrong.
    ghost is_usage: { Self → Bool };

    /// The program's exit status: 2 for wrong arguments, and 1 for any other fault.
    fn status(&self) -> u8
        ensures { result ≡ status_of (is_usage self.now) };
}

/// The arguments after the program's own name. `Usage` if they can't be taken, as where one isn't UTF-8.
pub fn arguments(rt: &HostRuntime) -> Result<Vec<String>, Failure>
    ensures { IfErr result (λ e. e ≡ Usage) }
{
    let words = env::args(rt).map_err(|_| Failure::Usage)?.skip(1);
    words.collect(rt.alloc()).map_err(|_| Failure::Usage)
}

/// The file and the section in the arguments after the program's own name. The section is by default `.text`.
///
/// `Usage` for none, and for more than two.
pub fn file_and_section(arguments: &[String]) -> Result<(&str, &str), Failure>
    ensures { let given = words_of (map string_bytes arguments.now) in MatchResult result
        (λ w. given ≡ Some (w.0.now, w.1.now)) (λ e. (given ≡ None) × (e ≡ Usage)) }
{
    match arguments {
        [file] => Ok((file.as_str(), ".text")),
        [file, section] => Ok((file.as_str(), section.as_str())),
        _ => Err(Failure::Usage),
    }
}

/// The file at this path, to be read. `File` if it can't be opened.
pub fn open(rt: &HostRuntime, path: &str) -> Result<File, Failure>
    ensures { IfErr result (λ e. e ≡ Unreadable) }
{
    File::open(rt, path).map_err(|_| Failure::File)
}

/// Whether the file can be read at offsets: it has a length above 0, and the last byte of that length.
///
/// A pipe has no length, a file of `/proc` has one of 0, and a file of `/sys` may have fewer bytes than its length:
/// these are read to their end.
pub fn is_read_at_offsets<S: Source<Log = ()>>(file: &S) -> bool
    ensures yes { result ≡ true → IfSome (S.bytes file.now) (λ bytes. bytes ≢ []) }
    ensures no { result ≡ false → IfSome (S.bytes file.now)
        (λ bytes. (bytes ≡ []) ⊎ (S.may_fail file.now ≡ true)) }
{
    match file.length() {
        Ok(length) if length > 0 => file.fill_at(&mut (), length - 1, &mut [0]).is_ok(),
        _ => false,
    }
}

// The failure for a reader's error: `OutOfMemory` if an allocation failed, and `File` for any other.
fn read_failure(e: io::Error) -> Failure
    ensures { result ≡ failure_of (error_kind e) }
{
    match e.kind() {
        ErrorKind::OutOfMemory => Failure::OutOfMemory,
        _ => Failure::File,
    }
}

// The failure for an error of reading a file at offsets.
fn read_failure_at(e: ReadError) -> Failure
    ensures { result ≡ read_failure_of e }
{
    match e {
        ReadError::Refused(e) => Failure::Refused(e),
        ReadError::Unreadable => Failure::File,
        ReadError::OutOfMemory => Failure::OutOfMemory,
    }
}

/// The bytes up to the reader's end.
///
/// `File` if the reader fails; `OutOfMemory` if an allocation fails, or the reader reports that one did.
pub fn read_whole<R: Read>(alloc: Global, file: &mut R) -> Result<Vec<u8>, Failure>
    ensures read { IfOk result (λ v. IfSome (R.remaining file.old) (λ bytes. v.items ≡ bytes)) }
    ensures refused { IfErr result (λ e. (e ≡ Unreadable) ⊎ (e ≡ OutOfMemory)) }
{
    let mut bytes = Vec::new(alloc);
    file.read_to_end(&mut bytes).map_err(read_failure)?;
    Ok(bytes)
}

/// What a program reads of a file: the tables of an ELF file for a section, and all bytes of any other file.
#[derive(Drop)]
pub enum Contents {
    Tables(Tables<'static>),
    Whole(Vec<u8>),
}

/// What a program reads of a source, at offsets, for the function symbols of a section. Of an ELF file only the headers,
/// the symbol table and the names are read.
///
/// `File` if it can't be read; `Refused` with the error of the ELF reader; `OutOfMemory` if an allocation fails.
pub fn contents_at<S: Source<Log = ()>>(
    alloc: Global,
    source: &S,
    section: &str,
) -> Result<Contents, Failure>
    ensures gets { (bytes : List ℕ) → S.bytes source.now ≡ Some bytes
        → GetsContents (S.may_fail source.now ≡ true) bytes section.now result }
    ensures unwritten { IfErr result (λ e. e ≢ Unwritten) }
{
    match read_contents(alloc, source, section) {
        Ok(contents) => Ok(contents),
        Err(e) => Err(read_failure_at(e)),
    }
}

fn read_contents<S: Source<Log = ()>>(
    alloc: Global,
    source: &S,
    section: &str,
) -> Result<Contents, ReadError>
    ensures { (bytes : List ℕ) → S.bytes source.now ≡ Some bytes
        → ReadsAs (AreContentsOf bytes section.now) (S.may_fail source.now ≡ true) (readers_answer bytes section.now)
        result }
{
    let format = read_format(alloc, source, &mut ())?;
    match format {
        Format::Elf32 { .. } | Format::Elf64 { .. } => {
            let selection = Selection::Section(section);
            let which = SymbolTable::Symtab;
            let tables = read_tables(alloc, source, &mut (), format, which, selection)?;
            Ok(Contents::Tables(tables))
        }
        _ => {
            let length = source.length()?;
            Ok(Contents::Whole(part(alloc, source, &mut (), 0, length)?))
        }
    }
}

/// The result of a program: the fault of its work if it has one, and else `Write` if the flush after it failed.
pub fn finish<F: From<Failure>>(flushed: io::Result<()>, ended: Result<(), F>) -> Result<(), F>
    ensures { MatchResult ended
        (λ done. MatchResult flushed (λ _. result ≡ Ok done) (λ _. IsErrAnd result (F.from_gives Unwritten)))
        (λ fault. result ≡ Err fault) }
{
    ended?;
    flushed.map_err(|_| Failure::Write)?;
    Ok(())
}

/// Prints a program's fault to standard error, if it has one, and returns its exit status.
pub fn exit<F: Fault + Drop>(rt: &HostRuntime, ended: Result<(), F>) -> ExitCode
    ensures { MatchResult ended (λ _. exit_status result ≡ 0)
        (λ f. exit_status result ≡ status_of (F.is_usage f)) }
{
    match ended {
        Ok(()) => ExitCode::SUCCESS,
        Err(fault) => {
            let _ = eprintln!(rt; "{fault}");
            ExitCode::from(fault.status())
        }
    }
}
