//! Sources that are read at offsets: a file, or bytes in memory.

ghost use Rattle.std.specs.Prelude.{◌≡◌, ◌⊎◌, ◌∷◌, [], Bool, true, false, List, ℕ, Option, None, IfOk, IfErr, OnOk, IfSome, length};
ghost use Rattle.std.specs.IoError.{error_kind};
ghost use Rattle.std.specs.declared.io.ErrorKind.TheVariants.{OutOfMemory};
ghost use Rattle.binfarce_bytes.specs.Part.{Part, PartSet, part};
ghost use Rattle.binfarce_bytes.specs.Source.{IsPart, MayMiss, PartLog, AskedFor};

use crate::parser::to_index;
use std::alloc::Global;
use std::fs::File;
use std::io::{self, Error, ErrorKind};
use std::os::unix::fs::FileExt;

/// A source that is read at offsets.
pub trait Source {
    /// A log of the parts that it was asked for; `()` if none is kept.
    type Log;

    // All its bytes, where they are known.
    ghost bytes: { Self → Option (List ℕ) } = { λ _. None };

    // Whether it may fail to give its length, or bytes that it has.
    ghost may_fail: { Self → Bool } = { λ _. true };

    // The set of the parts that it surely gives. One that can't give its length gives none surely.
    ghost is_sure: { Self → PartSet } = { λ _ _. false };

    // A log's answer to the question whether a set has all its parts.
    ghost logs_only: { Self.Log → PartLog } = { λ _ _. true };

    /// Its length in bytes. An error if it can't be read at offsets.
    fn length(&self) -> io::Result<u64>
        ensures length { IfOk result (λ n. IfSome (bytes self.now) (λ all. n ≡ length all)) }
        ensures failed { IfErr result (λ _. may_fail self.now ≡ true) }
        ensures unsure { IfErr result (λ _. (p : Part) → is_sure self.now p ≡ false) };

    /// Fills the buffer with the bytes from the offset on. An error if they end before the buffer is full.
    fn fill_at(&self, log: &mut Self::Log, offset: u64, buf: &mut [u8]) -> io::Result<()>
        ensures asked { AskedFor (logs_only log.old) (logs_only log.new) (part offset (length buf.new) ∷ []) }
        ensures part { OnOk result (IsPart (bytes self.now) offset buf.new) }
        ensures failed { IfErr result (λ _. MayMiss (may_fail self.now) (bytes self.now) offset (length buf.new)) }
        ensures unsure { IfErr result (λ _. is_sure self.now (part offset (length buf.new)) ≡ false) };
}

impl Source for File {
    type Log = ();

    /// `Unsupported` if it isn't a regular file.
    fn length(&self) -> io::Result<u64> {
        let metadata = self.metadata()?;
        if metadata.is_file() {
            Ok(metadata.len())
        } else {
            Err(Error::from(ErrorKind::Unsupported))
        }
    }

    fn fill_at(&self, _log: &mut (), offset: u64, buf: &mut [u8]) -> io::Result<()> {
        self.read_exact_at(buf, offset)
    }
}

impl Source for &[u8] {
    type Log = ();

    ghost use Rattle.std.specs.Prelude.{◌+◌, Some, false, length, nat_le};

    ghost bytes = { λ s. Some s.now };

    ghost may_fail = { λ _. false };

    ghost is_sure = { λ s p. nat_le (p.offset + p.size) (length s.now) };

    fn length(&self) -> io::Result<u64> {
        Ok(self.len() as u64)
    }

    fn fill_at(&self, _log: &mut (), offset: u64, buf: &mut [u8]) -> io::Result<()> {
        match self.get(to_index(offset)..) {
            Some(rest) if buf.len() <= rest.len() => {
                buf.copy_from_slice(&rest[..buf.len()]);
                Ok(())
            }
            _ => Err(Error::from(ErrorKind::UnexpectedEof)),
        }
    }
}

/// The `size` bytes from the offset on, in memory of that size.
///
/// Fails with the source's error, and with `OutOfMemory` if the allocation fails.
pub fn read_part<S: Source>(
    alloc: Global,
    source: &S,
    log: &mut S::Log,
    offset: u64,
    size: usize,
) -> io::Result<Vec<u8>>
    ensures asked { AskedFor (S.logs_only log.old) (S.logs_only log.new) (part offset size ∷ []) }
    ensures size { IfOk result (λ v. length v.items ≡ size) }
    ensures part { IfOk result (λ v. IsPart (S.bytes source.now) offset v.items) }
    ensures failed { IfErr result
        (λ e. (error_kind e ≡ OutOfMemory) ⊎ MayMiss (S.may_fail source.now) (S.bytes source.now) offset size) }
    ensures unsure { IfErr result
        (λ e. (error_kind e ≡ OutOfMemory) ⊎ (S.is_sure source.now (part offset size) ≡ false)) }
{
    let mut bytes = Vec::with_capacity(alloc, size)?;
    bytes.resize(size, 0)?;
    source.fill_at(log, offset, &mut bytes)?;
    Ok(bytes)
}
