//! The format of a file that is read at offsets.

ghost use Rattle.std.specs.Prelude.{◌≡◌, ◌≢◌, ◌∷◌, [], List, ℕ, true, Ok, Some, length, min, IfErr};
ghost use Rattle.binfarce_bytes.specs.Format.{format_of};
ghost use Rattle.binfarce_bytes.specs.Part.{part};
ghost use Rattle.binfarce_bytes.specs.Source.{ReadsOnly};
ghost use Rattle.binfarce_tables.specs.Reading.{Reads};
ghost use Rattle.binfarce_tables.specs.declared.error.ReadError.TheVariants.{Unreadable};

use crate::error::ReadError;
use crate::opened::open;
use binfarce_bytes::format::{Format, detect_format};
use binfarce_bytes::source::Source;
use std::alloc::Global;

// How many of a file's first bytes name its format.
const MAGIC_LENGTH: u64 = 8;

/// The format of a file, as `detect_format` gives it. Its first 8 bytes are read, or all of a shorter file, and no
/// other byte.
///
/// # Errors
///
/// `Unreadable` if the source can't be read at offsets, or the read fails, and never for a source that can't fail,
/// such as bytes in memory; `OutOfMemory` if the allocation fails.
pub fn read_format<S: Source>(
    alloc: Global,
    source: &S,
    log: &mut S::Log,
) -> Result<Format, ReadError>
    ensures answer { (file : List ℕ) → S.bytes source.now ≡ Some file
        → Reads (S.may_fail source.now) (λ format. format) (Ok (format_of file)) result }
    ensures only { (file : List ℕ) → S.bytes source.now ≡ Some file
        → ReadsOnly (S.is_sure source.now) (S.logs_only log.old) (S.logs_only log.new)
        (part 0 (min 8 (length file)) ∷ []) (IfErr result (λ e. e ≢ Unreadable)) }
{
    let opened = open(alloc, source)?;
    let head = opened.part(log, 0, MAGIC_LENGTH.min(opened.len))?;
    Ok(detect_format(&head))
}
