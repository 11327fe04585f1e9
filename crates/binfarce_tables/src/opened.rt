//! A file that is read at offsets.

ghost use Rattle.std.specs.Prelude.{◌≡◌, ◌≢◌, ◌⊎◌, ◌∷◌, [], ◌+◌, ◌<◌, ◌≤◌, List, ℕ, false, true, Ok, Some, length, IfOk, IfErr};
ghost use Rattle.std.specs.Result.{IsErr};
ghost use Rattle.binfarce_bytes.specs.Number.{bytes_at};
ghost use Rattle.binfarce_bytes.specs.Part.{Part, part, whole_part};
ghost use Rattle.binfarce_bytes.specs.Refusal.{if_as_long_as};
ghost use Rattle.binfarce_bytes.specs.Source.{ReadsOnly};
ghost use Rattle.binfarce_tables.specs.Reading.{Reads, Known};
ghost use Rattle.binfarce_tables.specs.declared.error.ReadError.TheVariants.{Unreadable, OutOfMemory};

use crate::error::ReadError;
use binfarce_bytes::ParseError;
use binfarce_bytes::parser::to_index;
use binfarce_bytes::source::{Source, read_part};
use std::alloc::Global;
use std::io;

/// A source that is read at offsets.
#[derive(Drop)]
pub struct Opened<'a, S> {
    /// The allocator of what is read of it.
    pub alloc: Global,
    /// The source itself.
    pub source: &'a S,
    /// Its length in bytes.
    pub len: u64,
}

/// Asks for the source's length, as every reading does first. Nothing is allocated.
///
/// # Errors
///
/// That of the source, which can't be read at offsets; never of a source that can't fail, such as bytes in memory.
pub fn open<S: Source>(alloc: Global, source: &S) -> io::Result<Opened<'_, S>>
    ensures source { IfOk result (λ opened. opened.source.now ≡ source.entry.now) }
    ensures known { (file : List ℕ) → S.bytes source.entry.now ≡ Some file
        → IfOk result (λ opened. Known (S.bytes opened.source.now) opened.len file) }
    ensures failed { IfErr result (λ _. S.may_fail source.entry.now ≡ true) }
    ensures unsure { IfErr result (λ _. (p : Part) → S.is_sure source.entry.now p ≡ false) }
{
    let len = source.length()?;
    Ok(Opened { alloc, source, len })
}

impl<S: Source> Opened<'_, S> {
    // The bytes of a range that lies in the file.
    pub(crate) fn part(
        &self,
        log: &mut S::Log,
        offset: u64,
        size: u64,
    ) -> Result<Vec<u8>, ReadError>
        ensures part { (file : List ℕ) → S.bytes self.now.source.now ≡ Some file → offset + size ≤ length file
            → Reads (S.may_fail self.now.source.now) (λ v. v.items) (Ok (bytes_at file offset size)) result }
        ensures size { IfOk result (λ v. length v.items ≡ size) }
        ensures only { ReadsOnly (S.is_sure self.now.source.now) (S.logs_only log.old) (S.logs_only log.new)
            (part offset size ∷ []) (IfErr result (λ e. e ≢ Unreadable)) }
    {
        part(self.alloc, self.source, log, offset, size)
    }

    /// The `size` bytes of the file from the offset on, in memory of that size. No other byte is read.
    ///
    /// # Errors
    ///
    /// `Refused` with `UnexpectedEof` if they don't all lie in the file; `Unreadable` if a read of the source
    /// fails, and never for a source that can't fail, such as bytes in memory; `OutOfMemory` if the allocation fails.
    pub fn within(&self, log: &mut S::Log, offset: u64, size: u64) -> Result<Vec<u8>, ReadError>
        ensures answer { (file : List ℕ) → Known (S.bytes self.now.source.now) self.now.len file
            → Reads (S.may_fail self.now.source.now) (λ v. v.items)
            (if_as_long_as (offset + size) file (Ok (bytes_at file offset size))) result }
        ensures lies { IfOk result (λ _. offset + size ≤ self.now.len) }
        ensures size { IfOk result (λ v. length v.items ≡ size) }
        ensures only { (file : List ℕ) → Known (S.bytes self.now.source.now) self.now.len file
            → ReadsOnly (S.is_sure self.now.source.now) (S.logs_only log.old) (S.logs_only log.new)
            (whole_part file offset size) (IfErr result (λ e. e ≢ Unreadable)) }
    {
        if offset > self.len || size > self.len - offset {
            return Err(ReadError::Refused(ParseError::UnexpectedEof));
        }
        self.part(log, offset, size)
    }
}

/// The `size` bytes of a file from the offset on, in memory of that size.
///
/// # Errors
///
/// `Unreadable` if a read of the source fails, for instance where it ends before `offset + size` (an opened file
/// doesn't fail where `size` is 0). `OutOfMemory` if the allocation fails, and where `size` exceeds `usize`.
pub fn part<S: Source>(
    alloc: Global,
    source: &S,
    log: &mut S::Log,
    offset: u64,
    size: u64,
) -> Result<Vec<u8>, ReadError>
    ensures part { (file : List ℕ) → S.bytes source.now ≡ Some file → offset + size ≤ length file
        → Reads (S.may_fail source.now) (λ v. v.items) (Ok (bytes_at file offset size)) result }
    ensures past_end { (file : List ℕ) → S.bytes source.now ≡ Some file → length file < offset + size
        → IsErr result }
    ensures size { IfOk result (λ v. length v.items ≡ size) }
    ensures failed { IfErr result (λ e. (e ≡ Unreadable) ⊎ (e ≡ OutOfMemory)) }
    ensures only { ReadsOnly (S.is_sure source.now) (S.logs_only log.old) (S.logs_only log.new)
        (part offset size ∷ []) (IfErr result (λ e. e ≢ Unreadable)) }
{
    Ok(read_part(alloc, source, log, offset, to_index(size))?)
}
