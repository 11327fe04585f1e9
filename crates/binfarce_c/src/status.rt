//! The status of a call: its number, and its text.

ghost use Rattle.std.specs.Prelude.{◌≡◌, length};
ghost use Rattle.binfarce.specs.Refusal.{refusal_of};
ghost use Rattle.binfarce_foreign.specs.Foreign.{foreign_in};
ghost use Rattle.binfarce_c.specs.Buffer.{put};
ghost use Rattle.binfarce_c.specs.Status.{status_of, detail_of, foreign_status, status_in, foreign_words, number_of, status_words, version_number};

use crate::buffer;
use binfarce::ParseError;
use binfarce_foreign::{FIRST_LENGTH, Foreign, named_by};

/// The call succeeded.
pub(crate) const OK: u32 = 0;

/// There is no such section, or no crate.
pub(crate) const NONE: u32 = 1;

/// A name that was passed isn't UTF-8.
pub(crate) const NOT_UTF8: u32 = 2;

/// An allocation failed.
pub(crate) const OUT_OF_MEMORY: u32 = 3;

/// The file's first bytes name no supported format.
pub(crate) const UNKNOWN_FORMAT: u32 = 4;

/// A sum of sizes is 2^64 or more.
pub(crate) const TOO_LARGE: u32 = 5;

/// The section has no bytes in the file.
pub(crate) const NO_BYTES: u32 = 14;

/// The section's bytes end past the file.
pub(crate) const PAST_END: u32 = 15;

/// The version: 0.3.0.
const VERSION: u32 = 3 << 8;

/// The number of a reader's refusal.
pub(crate) fn status_of(error: ParseError) -> u32
    ensures { result ≡ status_of (refusal_of error) }
{
    match error {
        ParseError::SymbolsSectionIsMissing => 6,
        ParseError::SectionIsMissing(".symtab") => 7,
        ParseError::SectionIsMissing(".dynsym") => 12,
        ParseError::SectionIsMissing(".dynstr") => 13,
        ParseError::SectionIsMissing(_) => 8,
        ParseError::UnexpectedSectionType { .. } => 9,
        ParseError::MalformedInput => 10,
        ParseError::UnexpectedEof => 11,
        ParseError::OutOfMemory => OUT_OF_MEMORY,
    }
}

/// The detail of a refusal: the section type that was found.
pub(crate) fn detail_of(error: ParseError) -> u32
    ensures { result ≡ detail_of (refusal_of error) }
{
    match error {
        ParseError::UnexpectedSectionType { actual, .. } => actual,
        _ => 0,
    }
}

/// What a file is that no reader reads, by its first bytes; `BINFARCE_OK` for any other. See `binfarce.h`.
#[unsafe(no_mangle)]
pub extern "C" fn binfarce_foreign(file: &[u8]) -> u32
    ensures { result ≡ status_in (foreign_in file.now) }
{
    match foreign_in(file) {
        None => OK,
        Some(foreign) => foreign_status(foreign),
    }
}

/// What a file is that no reader reads, if it is such a file.
pub(crate) fn foreign_in(file: &[u8]) -> Option<Foreign>
    ensures { result ≡ foreign_in file.now }
{
    let count = FIRST_LENGTH.min(file.len());
    named_by(&file[..count])
}

/// The number of such a file.
pub(crate) fn foreign_status(foreign: Foreign) -> u32
    ensures { result ≡ foreign_status foreign }
{
    match foreign {
        Foreign::Universal => 32,
        Foreign::JavaClass => 33,
        Foreign::Macho32 => 34,
        Foreign::MachoBigEndian => 35,
        Foreign::Archive => 36,
        Foreign::ThinArchive => 37,
        Foreign::Coff => 38,
        Foreign::Pdb => 39,
        Foreign::Wasm => 40,
        Foreign::Bitcode => 41,
        Foreign::Script => 42,
        Foreign::Text => 43,
        Foreign::Empty => 44,
        Foreign::ManySections => 45,
        Foreign::Core => 46,
        Foreign::Dos => 47,
        Foreign::Ne => 48,
        Foreign::Le => 49,
        Foreign::Gzip => 50,
        Foreign::Xz => 51,
        Foreign::Zstd => 52,
    }
}

/// Whether something is so, as C gets it: 1 or 0.
pub(crate) fn number_of(it: bool) -> u32
    ensures { result ≡ number_of it }
{
    if it { 1 } else { 0 }
}

/// The version of the library: `BINFARCE_VERSION_NUMBER`.
#[unsafe(no_mangle)]
pub extern "C" fn binfarce_version() -> u32
    ensures { result ≡ version_number 0 3 0 }
{
    VERSION
}

/// Writes the text of a status into a buffer, and returns its whole length. See `binfarce.h`.
#[unsafe(no_mangle)]
pub extern "C" fn binfarce_status_text(status: u32, out: &mut [u8]) -> usize
    ensures length { result ≡ length (status_words status) }
    ensures text { out.new ≡ put out.old (status_words status) }
{
    let words = words_of(status).as_bytes();
    buffer::put(words, out);
    words.len()
}

fn words_of(status: u32) -> &'static str
    ensures { result.now ≡ status_words status }
{
    match status {
        0 => "ok",
        1 => "not there",
        2 => "not UTF-8",
        3 => "out of memory",
        4 => "unknown file format",
        5 => "sizes are too large",
        6 => "symbols section is missing",
        7 => "section .symtab is missing",
        8 => "section .strtab is missing",
        9 => "unexpected section type",
        10 => "malformed input file",
        11 => "unexpected end of file",
        12 => "section .dynsym is missing",
        13 => "section .dynstr is missing",
        14 => "section has no bytes in the file",
        15 => "section reaches past the end of the file",
        _ => foreign_words(status),
    }
}

// The text of the number of a file that no reader reads.
#[tactic(auto, unfolding(crate::specs::Status::foreign_words))]
fn foreign_words(status: u32) -> &'static str
    ensures { result.now ≡ foreign_words status }
{
    match status {
        32 => "a universal Mach-O file",
        33 => "a Java class file",
        34 => "a Mach-O file of 32 bits",
        35 => "a big-endian Mach-O file",
        36 => "an archive",
        37 => "a thin archive",
        38 => "a COFF object file",
        39 => "a PDB file",
        40 => "a WebAssembly module",
        41 => "LLVM bitcode",
        42 => "a script",
        43 => "a text",
        44 => "an empty file",
        45 => "an ELF file of 65,280 sections or more",
        46 => "a core file",
        47 => "a DOS program",
        48 => "an NE file, of 16-bit Windows or OS/2",
        49 => "an LE or LX file, of OS/2 or Windows 9x",
        50 => "a gzip file",
        51 => "an xz file",
        52 => "a Zstandard file",
        _ => "unknown status",
    }
}
