//! The input of a command: files and standard input.

ghost use Rattle.std.specs.Prelude.{◌≡◌, ◌-◌, ℕ, List, [], Some, None, Ok, true, is_ok, MatchResult, IfOk, IfErr, IsErrAnd, drop, length, min, take};
ghost use Rattle.std.specs.IoError.{error_kind};
ghost use Rattle.std.specs.declared.io.ErrorKind.TheVariants.{OutOfMemory};
ghost use Rattle.binfarce_foreign.specs.Foreign.{named_by};
ghost use Rattle.binfarce_io.specs.Input.{HoldsFirst, Judges, Loads, ReadsFirst, ReadsJudged, ReadsNoMore, ReadsRest, bytes_of, file_of, held_of, is_whole, may_fail_of};

use crate::fault::Fault;
use binfarce_bytes::format::{Format, detect_format};
use binfarce_bytes::parser::to_index;
use binfarce_bytes::source::{Source, read_part};
use binfarce_foreign::{FIRST_LENGTH, named_by};
use binfarce_sections::error::SectionError;
use binfarce_tools::program::is_read_at_offsets;
use std::alloc::Global;
use std::cell::Cell;
use std::io::{self, Error, ErrorKind, Read};

/// A file, or standard input.
#[derive(Drop)]
pub enum FileOrStdin<F, R> {
    /// A file.
    File(F),
    /// Standard input.
    Standard(R),
}

impl<F: Read, R: Read> Read for FileOrStdin<F, R> {
    ghost use Rattle.binfarce_io.specs.Input.{of_either};

    ghost remaining = { of_either F.remaining R.remaining };

    fn read(&mut self, buf: &mut [u8]) -> io::Result<usize> {
        match self {
            FileOrStdin::File(file) => file.read(buf),
            FileOrStdin::Standard(input) => input.read(buf),
        }
    }
}

impl<F: Source<Log = ()>, R: Read> Source for FileOrStdin<F, R> {
    type Log = ();

    ghost use Rattle.std.specs.Prelude.{true};
    ghost use Rattle.binfarce_io.specs.Input.{of_either};

    // Those of standard input are what is left to be read of it.
    ghost bytes = { of_either F.bytes R.remaining };

    ghost may_fail = { of_either F.may_fail (λ _. true) };

    /// `Unsupported` for standard input.
    fn length(&self) -> io::Result<u64> {
        match self {
            FileOrStdin::File(file) => file.length(),
            FileOrStdin::Standard(_) => Err(Error::from(ErrorKind::Unsupported)),
        }
    }

    fn fill_at(&self, log: &mut (), offset: u64, buf: &mut [u8]) -> io::Result<()> {
        match self {
            FileOrStdin::File(file) => file.fill_at(log, offset, buf),
            FileOrStdin::Standard(_) => Err(Error::from(ErrorKind::Unsupported)),
        }
    }
}

// Bytes of a file that are in memory: its first ones, or all; and how many it has.
#[derive(Drop)]
struct Held {
    bytes: Vec<u8>,
    file_length: u64,
}

impl Held {
    // Whether they are all.
    fn is_whole(&self) -> bool
        ensures { result ≡ is_whole self.now }
    {
        self.bytes.len() as u64 == self.file_length
    }
}

/// A file, those of its bytes that are in memory, and the system's reason if a read of it fails.
#[derive(Drop)]
pub struct OpenFile<F> {
    file: F,
    held: Option<Held>,
    // How many bytes were read of it in order.
    len: u64,
    reason: Cell<Option<Error>>,
}

impl<F> OpenFile<F> {
    /// This file, of which nothing is in memory and no read has failed.
    pub fn new(file: F) -> OpenFile<F>
        ensures { (file_of result ≡ file) × (held_of result ≡ None) }
    {
        OpenFile {
            file,
            held: None,
            len: 0,
            reason: Cell::new(None),
        }
    }

    /// How many bytes were read of it in order.
    pub fn len(&self) -> u64 {
        self.len
    }

    /// The reason of the last failed read, if any.
    pub fn take_reason(&self) -> Option<Error> {
        self.reason.take()
    }

    // What a read came to. Its error is kept, and one of the same kind takes its place.
    fn keep<T>(&self, read: io::Result<T>) -> io::Result<T>
        ensures kept { MatchResult result (λ x. read ≡ Ok x)
            (λ kept. IsErrAnd read (λ e. error_kind kept ≡ error_kind e)) }
        ensures variant { is_ok result ≡ is_ok read }
    {
        read.map_err(|e| {
            let kind = e.kind();
            self.reason.set(Some(e));
            Error::from(kind)
        })
    }
}

impl<F: Read + Source<Log = ()>> OpenFile<F> {
    /// Loads the file: if it can be read at offsets, only the length and the first `FIRST_LENGTH` bytes; any other to
    /// its end, or only so many first bytes if these name no format.
    ///
    /// # Errors
    ///
    /// `Unsupported` exactly if the first `FIRST_LENGTH` bytes name what no reader reads, and no other byte is read
    /// then; `Unreadable` if a read fails, and `OutOfMemory` if an allocation fails.
    pub fn load(&mut self, alloc: Global) -> Result<(), Fault>
        ensures loads { (bytes : List ℕ) → F.bytes (file_of self.old) ≡ Some bytes
            → F.remaining (file_of self.old) ≡ Some bytes
            → Loads (F.may_fail (file_of self.old)) bytes (bytes_of F.bytes self.new)
            (may_fail_of F.may_fail self.new) result }
        ensures no_more { ReadsNoMore (F.remaining (file_of self.old)) (F.remaining (file_of self.new)) }
    {
        self.held = self.first_held(alloc)?;
        if let Some(held) = &self.held {
            if is_read_at_offsets(self) {
                return refuse_foreign(&held.bytes);
            }
        }
        let bytes = read_judged(alloc, self)?;
        let file_length = bytes.len() as u64;
        self.held = Some(Held { bytes, file_length });
        Ok(())
    }

    // The length and the first `FIRST_LENGTH` bytes of the file, or all of a shorter one. `None` if a read fails.
    fn first_held(&self, alloc: Global) -> io::Result<Option<Held>>
        ensures held { (file : List ℕ) → F.bytes (file_of self.now) ≡ Some file
            → IfOk result (HoldsFirst (F.may_fail (file_of self.now)) file) }
        ensures failed { IfErr result (λ e. error_kind e ≡ OutOfMemory) }
    {
        let Ok(file_length) = self.keep(self.file.length()) else {
            return Ok(None);
        };
        let size = to_index(file_length).min(FIRST_LENGTH);
        match self.keep(read_part(alloc, &self.file, &mut (), 0, size)) {
            Ok(bytes) => Ok(Some(Held { bytes, file_length })),
            Err(e) if e.kind() == ErrorKind::OutOfMemory => Err(e),
            Err(_) => Ok(None),
        }
    }
}

impl<F: Read> Read for OpenFile<F> {
    ghost use Rattle.binfarce_io.specs.Input.{file_of};

    ghost remaining = { λ s. F.remaining (file_of s) };

    fn read(&mut self, buf: &mut [u8]) -> io::Result<usize> {
        let read = self.file.read(buf);
        if let Ok(count) = read {
            self.len = self.len.saturating_add(count as u64);
        }
        self.keep(read)
    }
}

impl<F: Source<Log = ()>> Source for OpenFile<F> {
    type Log = ();

    ghost use Rattle.binfarce_io.specs.Input.{bytes_of, may_fail_of};

    ghost bytes = { bytes_of F.bytes };

    ghost may_fail = { may_fail_of F.may_fail };

    fn length(&self) -> io::Result<u64> {
        match &self.held {
            Some(held) => Ok(held.file_length),
            None => self.keep(self.file.length()),
        }
    }

    fn fill_at(&self, log: &mut (), offset: u64, buf: &mut [u8]) -> io::Result<()> {
        let Some(held) = &self.held else {
            return self.keep(self.file.fill_at(log, offset, buf));
        };
        let filled = held.bytes.as_slice().fill_at(log, offset, buf);
        if filled.is_ok() || held.is_whole() {
            return filled;
        }
        let count = copy_at(&held.bytes, offset, buf);
        self.keep(
            self.file
                .fill_at(log, offset + count as u64, &mut buf[count..]),
        )
    }
}

/// The bytes up to the reader's end; only the first `FIRST_LENGTH`, with no further read, where these name no format.
///
/// # Errors
///
/// As `load`, by the same bytes.
pub fn read_judged<R: Read>(alloc: Global, reader: &mut R) -> Result<Vec<u8>, Fault>
    ensures judged { ReadsJudged (R.remaining reader.old) (R.remaining reader.new) result }
    ensures no_more { ReadsNoMore (R.remaining reader.old) (R.remaining reader.new) }
{
    let mut bytes = Vec::new(alloc);
    read_first(reader, &mut bytes)?;
    refuse_foreign(&bytes)?;
    match detect_format(&bytes) {
        Format::Unknown => Ok(bytes),
        _ => read_rest(reader, bytes),
    }
}

// Copies to the front of the buffer those of its bytes that are held, which begin at this offset, and returns how many
// these are.
fn copy_at(held: &[u8], offset: u64, buf: &mut [u8]) -> usize
    ensures count { result ≡ min (length held.now - offset) (length buf.old) }
    ensures copied { take result buf.new ≡ take result (drop offset held.now) }
{
    let rest = &held[to_index(offset).min(held.len())..];
    let count = rest.len().min(buf.len());
    buf[..count].copy_from_slice(&rest[..count]);
    count
}

// Refuses a file that no reader reads, by its first bytes.
fn refuse_foreign(first: &[u8]) -> Result<(), Fault>
    ensures { Judges (named_by first.now) result }
{
    match named_by(first) {
        Some(kind) => Err(Fault::Unsupported(kind)),
        None => Ok(()),
    }
}

// Reads the rest after these bytes.
fn read_rest<R: Read>(reader: &mut R, mut bytes: Vec<u8>) -> Result<Vec<u8>, Fault>
    ensures { ReadsRest (R.remaining reader.old) (R.remaining reader.new) bytes.items result }
{
    reader.read_to_end(&mut bytes)?;
    Ok(bytes)
}

// Reads the first `FIRST_LENGTH` bytes, or all if there are fewer.
#[tactic(auto, using(crate::proofs::Streams::short_are))]
fn read_first<R: Read>(reader: &mut R, bytes: &mut Vec<u8>) -> Result<(), Fault>
    requires { bytes.old.items ≡ [] }
    ensures { ReadsFirst (R.remaining reader.old) (R.remaining reader.new) bytes.new.items result }
{
    let mut part = [0; FIRST_LENGTH];
    for _ in 0..u64::MAX {
        let left = FIRST_LENGTH.saturating_sub(bytes.len());
        if left == 0 {
            return Ok(());
        }
        match reader.read(&mut part[..left]) {
            Ok(0) => return Ok(()),
            Ok(count) => bytes.extend_from_slice(&part[..count])?,
            Err(e) if e.kind() == ErrorKind::Interrupted => {}
            Err(e) => return Err(Fault::from(e)),
        }
    }
    Err(Fault::Section(SectionError::Unreadable))
}
