//! 32-bit ELF files of either byte order (System V gABI).

ghost use Rattle.std.specs.Prelude.{◌≡◌, ◌<◌, ◌≤◌, length, MatchResult};
ghost use Rattle.binfarce_bytes.specs.Refusal.{refusal_of, unexpected_eof};

use crate::elf;
use binfarce_bytes::{ByteOrder, ParseError};
use binfarce_elf::{header, sections};
use binfarce_elf_memory::selection;

// The word of this class (gABI, "Data Representation"), which names the class.
type Address = u32;

type Offset = u32;

/// A 32-bit ELF file. It borrows the file's bytes.
pub type Elf32<'a> = elf::Elf<'a, Address>;

/// The file header of a 32-bit file.
pub type Elf32Header = header::Header<Address>;

/// A section header's values in a 32-bit file, and the section's index.
pub type Section = sections::Section<Offset>;

/// An iterator over the sections of a 32-bit file: the result of [`Elf32::sections`](elf::Elf::sections).
pub type Sections<'a> = sections::Sections<'a, Offset>;

/// An iterator over the function symbols of a section: the result of [`Elf32::functions`](elf::Elf::functions).
pub type Functions<'a> = elf::Functions<'a>;

/// An iterator over the function symbols of all sections: the result of
/// [`Elf32::all_functions`](elf::Elf::all_functions).
pub type AllFunctions<'a> = selection::Functions<'a>;

/// Reads the file header in the given order. The magic number isn't checked. Nothing is copied.
///
/// # Errors
///
/// `UnexpectedEof` for fewer than 52 bytes.
#[tactic(auto, unfolding(binfarce_elf::specs::Elf::elf32))]
pub fn parse(file: &[u8], byte_order: ByteOrder) -> Result<Elf32<'_>, ParseError>
    ensures { MatchResult result
        (λ e. (52 ≤ length file.now) × (e ≡ record { order = byte_order; bytes = file.now }))
        (λ e. (length file.now < 52) × (refusal_of e ≡ unexpected_eof)) }
{
    elf::parse(file, byte_order)
}
