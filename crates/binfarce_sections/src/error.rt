//! Why sections can't be listed, or a section's bytes can't be given.

ghost use Rattle.std.specs.Prelude.{◌≡◌, Some};

use binfarce::ParseError;
use binfarce_tables::ReadError;
use binfarce_tools::list::ListError;
use std::alloc::AllocError;
use std::error::Error;
use std::fmt;

/// Why the sections of a file were not listed, or the bytes of one were not given.
#[derive(Debug, PartialEq, Drop)]
pub enum SectionError {
    /// The file's first bytes name no supported format.
    Unknown,
    /// The reader of the file's format refused it before the section was found, or before the last one was listed.
    Parse(ParseError),
    /// The file has no section of this name.
    NoSection,
    /// The section has no bytes in the file.
    NoBytes,
    /// The section's bytes end past the file.
    PastEnd,
    /// An allocation failed.
    OutOfMemory,
    /// A write of the sink failed. It took a beginning of the output.
    Write,
    /// The source can't be read at offsets, or a read of it failed, for instance because it became shorter. Never
    /// for bytes in memory.
    Unreadable,
}

impl fmt::Display for SectionError {
    ghost use Rattle.binfarce_sections.specs.Results.{section_words};

    ghost output = { λ e. Some (section_words e) };

    /// The errors of `list` have its text.
    fn fmt<W: fmt::Write>(&self, f: &mut fmt::Formatter<W>) -> fmt::Result {
        match self {
            SectionError::Unknown => write!(f, "{}", ListError::Unknown),
            SectionError::Parse(e) => write!(f, "{e}"),
            SectionError::NoSection => write!(f, "no section of this name"),
            SectionError::NoBytes => write!(f, "section has no bytes in the file"),
            SectionError::PastEnd => write!(f, "section reaches past the end of the file"),
            SectionError::OutOfMemory => write!(f, "{}", ListError::OutOfMemory),
            SectionError::Write => write!(f, "{}", ListError::Write),
            SectionError::Unreadable => write!(f, "cannot read file"),
        }
    }
}

impl Error for SectionError {}

impl From<ParseError> for SectionError {
    ghost use Rattle.binfarce_sections.specs.declared.error.SectionError.TheVariants.{Parse};

    ghost from_gives = { λ e s. s ≡ Parse e };

    fn from(e: ParseError) -> Self {
        SectionError::Parse(e)
    }
}

impl From<AllocError> for SectionError {
    ghost use Rattle.binfarce_sections.specs.declared.error.SectionError.TheVariants.{OutOfMemory};

    ghost from_gives = { λ _ s. s ≡ OutOfMemory };

    fn from(_: AllocError) -> Self {
        SectionError::OutOfMemory
    }
}

impl From<ReadError> for SectionError {
    ghost use Rattle.binfarce_sections.specs.Results.{error_of};

    ghost from_gives = { λ e s. s ≡ error_of e };

    /// A refusal becomes `Parse`.
    fn from(e: ReadError) -> Self {
        match e {
            ReadError::Refused(e) => SectionError::Parse(e),
            ReadError::Unreadable => SectionError::Unreadable,
            ReadError::OutOfMemory => SectionError::OutOfMemory,
        }
    }
}
