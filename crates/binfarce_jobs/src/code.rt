//! Whether a file has code.

ghost use Rattle.std.specs.Prelude.{◌≡◌, ℕ, List, Ok, Some};
ghost use Rattle.std.specs.List.{list_any};
ghost use Rattle.binfarce_sections.specs.Views.{section_view, sections_left};
ghost use Rattle.binfarce_tables.specs.Reading.{Reads};
ghost use Rattle.binfarce_jobs.specs.Code.{code_flags, has_code, is_code};

use binfarce_bytes::source::Source;
use binfarce_sections::kinds::SectionType;
use binfarce_sections::sections::{Section, Sections};
use binfarce_sections::tables::read;
use binfarce_tables::ReadError;
use std::alloc::Global;

// The flags of sections of code in ELF (gABI, "Sections"), in Mach-O (`<mach-o/loader.h>`), and in PE (PE Format,
// "Section Flags").
const SHF_EXECINSTR: u64 = 4;

const S_ATTR_INSTRUCTIONS: u64 = 0x8000_0400;

const IMAGE_SCN_CNT_CODE: u64 = 0x20;

/// Whether the file has code: a section of instructions that has bytes in memory, before any that can't be read. Of the
/// source it reads the section headers and the section names alone.
///
/// # Errors
///
/// Where a read or an allocation fails.
pub(crate) fn has_code<S: Source<Log = ()>>(alloc: Global, source: &S) -> Result<bool, ReadError>
    ensures { (file : List ℕ) → S.bytes source.now ≡ Some file
        → Reads (S.may_fail source.now) (λ has. has) (Ok (has_code file)) result }
{
    let tables = match read(alloc, source, &mut ()) {
        Ok(tables) => tables,
        Err(ReadError::Refused(_)) => return Ok(false),
        Err(e) => return Err(e),
    };
    match tables.sections() {
        Ok(sections) => Ok(any_code(sections)),
        Err(_) => Ok(false),
    }
}

// Whether one of the sections that are left has code.
fn any_code(sections: Sections<'_>) -> bool
    ensures { result ≡ list_any is_code (sections_left sections.entry).items }
{
    for section in sections {
        match section {
            Ok(section) if is_code(&section) => return true,
            Ok(_) => {}
            Err(_) => return false,
        }
    }
    false
}

fn is_code(section: &Section<'_>) -> bool
    ensures { result ≡ is_code (section_view section.now) }
{
    section.flags & code_flags(section.kind) != 0 && section.memory_size > 0
}

// The flags of which a section of code has one.
fn code_flags(kind: SectionType) -> u64
    ensures { result ≡ code_flags kind }
{
    match kind {
        SectionType::Elf(_) => SHF_EXECINSTR,
        SectionType::Macho(_) => S_ATTR_INSTRUCTIONS,
        SectionType::Pe => IMAGE_SCN_CNT_CODE,
    }
}
