//! Why a file's parts were not read.

use binfarce_bytes::ParseError;
use std::alloc::AllocError;
use std::io::{self, ErrorKind};

/// Why a file's parts were not read.
#[derive(Debug, Clone, Copy, PartialEq)]
pub enum ReadError {
    /// The file is refused, with the error of a reader of the whole file.
    Refused(ParseError),
    /// The file can't be read at offsets, or a read of it failed, for instance because it became shorter.
    Unreadable,
    /// An allocation failed.
    OutOfMemory,
}

impl From<io::Error> for ReadError {
    ghost use Rattle.std.specs.Prelude.{◌≡◌};
    ghost use Rattle.std.specs.IoError.{error_kind};
    ghost use Rattle.binfarce_tables.specs.Errors.{read_error};

    ghost from_gives = { λ x e. e ≡ read_error (error_kind x) };

    /// A failed allocation becomes `OutOfMemory`, and any other error becomes `Unreadable`.
    fn from(e: io::Error) -> Self {
        match e.kind() {
            ErrorKind::OutOfMemory => ReadError::OutOfMemory,
            _ => ReadError::Unreadable,
        }
    }
}

impl From<ParseError> for ReadError {
    ghost use Rattle.std.specs.Prelude.{◌≡◌};
    ghost use Rattle.binfarce_tables.specs.declared.error.ReadError.TheVariants.{Refused};

    ghost from_gives = { λ p e. e ≡ Refused p };

    fn from(e: ParseError) -> Self {
        ReadError::Refused(e)
    }
}

impl From<AllocError> for ReadError {
    ghost use Rattle.std.specs.Prelude.{◌≡◌};
    ghost use Rattle.binfarce_tables.specs.declared.error.ReadError.TheVariants.{OutOfMemory};

    ghost from_gives = { λ _ e. e ≡ OutOfMemory };

    fn from(_: AllocError) -> Self {
        ReadError::OutOfMemory
    }
}
