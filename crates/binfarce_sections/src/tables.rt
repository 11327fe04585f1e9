//! The tables of a file's sections, read from a source.

ghost use Rattle.std.specs.Prelude.{◌≡◌, ◌≢◌, ℕ, List, Some, IfErr, length};
ghost use Rattle.binfarce.specs.Format.{format_of};
ghost use Rattle.binfarce_bytes.specs.Source.{ReadsOnly};
ghost use Rattle.binfarce_tables.specs.declared.error.ReadError.TheVariants as read_errors;
ghost use Rattle.binfarce_sections.specs.Named.{bytes_of, bytes_named};
ghost use Rattle.binfarce_sections.specs.Parts.{section_parts_of, named_parts_of, format_parts, bytes_parts};
ghost use Rattle.binfarce_sections.specs.Section.{sections_of};
ghost use Rattle.binfarce_sections.specs.Views.{section_view, Opens};
ghost use Rattle.binfarce_sections.specs.declared.error.SectionError.TheVariants.{Write, Unreadable};
ghost use Rattle.binfarce_sections.specs.machine.Found.{ReadsBytes};
ghost use Rattle.binfarce_sections.specs.Tables.{AreTablesOf, ReadsTables, HasLength};

use crate::bytes::first_in;
use crate::error::SectionError;
use crate::sections::{Section, Sections, elf_sections_of, open_macho, open_pe};
use binfarce::Format;
use binfarce_bytes::source::Source;
use binfarce_tables::format::read_format;
use binfarce_tables::{Beginning, ReadError, Width, elf, macho, part, pe};
use std::alloc::Global;

/// The tables of a file's sections.
#[derive(Drop)]
pub enum Tables {
    Elf(elf::SectionParts),
    Macho(Beginning),
    Pe(pe::SectionParts),
    /// Those of a file whose format isn't supported.
    Unknown,
}

impl Tables {
    /// The sections of the file that the tables were read of, in file order. Nothing is read.
    ///
    /// # Errors
    ///
    /// `Unknown` if the format isn't supported; `Parse` if the file is too short for its header.
    pub fn sections(&self) -> Result<Sections<'_>, SectionError>
        ensures opens { (file : List ℕ) → AreTablesOf file self.entry.now
            → Opens (sections_of (format_of file) file) result }
        ensures unwritten { IfErr result (λ e. e ≢ Write) }
    {
        match self {
            Tables::Elf(parts) => Ok(elf_sections_of(parts)),
            Tables::Macho(beginning) => Ok(open_macho(beginning.bytes())?),
            Tables::Pe(parts) => Ok(open_pe(parts.beginning.bytes(), &parts.strings)?),
            Tables::Unknown => Err(SectionError::Unknown),
        }
    }

    // How many bytes the file had.
    pub(crate) fn file_length(&self) -> u64
        ensures { HasLength self.now result }
    {
        match self {
            Tables::Elf(parts) => parts.file_length(),
            Tables::Macho(beginning) => beginning.file_length(),
            Tables::Pe(parts) => parts.beginning.file_length(),
            Tables::Unknown => 0,
        }
    }
}

/// Reads the tables of a file's sections from a source. Of the source only these bytes are read: the first 8 bytes, which
/// name the format, and those that `read_sections` of `binfarce_tables` reads of a file of that format.
///
/// # Errors
///
/// `Refused` if the file is too short for its header. `Unreadable` if the source can't be read at offsets, or a read
/// of it fails; `OutOfMemory` if an allocation failed.
pub fn read<S: Source>(alloc: Global, source: &S, log: &mut S::Log) -> Result<Tables, ReadError>
    ensures reads { (file : List ℕ) → S.bytes source.now ≡ Some file
        → ReadsTables (S.may_fail source.now) file result }
    ensures only { (file : List ℕ) → S.bytes source.now ≡ Some file
        → ReadsOnly (S.is_sure source.now) (S.logs_only log.old) (S.logs_only log.new)
        (section_parts_of file) (IfErr result (λ e. e ≢ read_errors.Unreadable)) }
{
    let format = read_format(alloc, source, log)?;
    read_as(alloc, source, log, format)
}

// The tables of the sections of a file of this format.
#[tactic(auto, unfolding(crate::specs::Parts::format_parts))]
fn read_as<S: Source>(
    alloc: Global,
    source: &S,
    log: &mut S::Log,
    format: Format,
) -> Result<Tables, ReadError>
    ensures reads { (file : List ℕ) → S.bytes source.now ≡ Some file → format ≡ format_of file
        → ReadsTables (S.may_fail source.now) file result }
    ensures only { (file : List ℕ) → S.bytes source.now ≡ Some file
        → ReadsOnly (S.is_sure source.now) (S.logs_only log.old) (S.logs_only log.new)
        (format_parts format file) (IfErr result (λ e. e ≢ read_errors.Unreadable)) }
{
    match format {
        Format::Elf32 { byte_order } => {
            let parts = elf::read_sections(alloc, source, log, Width::Bits32, byte_order)?;
            Ok(Tables::Elf(parts))
        }
        Format::Elf64 { byte_order } => {
            let parts = elf::read_sections(alloc, source, log, Width::Bits64, byte_order)?;
            Ok(Tables::Elf(parts))
        }
        Format::Macho => Ok(Tables::Macho(macho::read_sections(alloc, source, log)?)),
        Format::PE => Ok(Tables::Pe(pe::read_sections(alloc, source, log)?)),
        Format::Unknown => Ok(Tables::Unknown),
    }
}

// The bytes of the first section of this name, read from the source.
pub(crate) fn read_named<F: Source>(
    alloc: Global,
    source: &F,
    log: &mut F::Log,
    name: &str,
) -> Result<Vec<u8>, SectionError>
    ensures unwritten { IfErr result (λ e. e ≢ Write) }
    ensures reads { (file : List ℕ) → F.bytes source.now ≡ Some file
        → ReadsBytes (F.may_fail source.now) (bytes_named (sections_of (format_of file) file) file name.now) result }
    ensures only { (file : List ℕ) → F.bytes source.now ≡ Some file
        → ReadsOnly (F.is_sure source.now) (F.logs_only log.old) (F.logs_only log.new)
        (named_parts_of file name.now) (IfErr result (λ e. e ≢ Unreadable)) }
{
    let tables = read(alloc, source, log)?;
    let sections = tables.sections()?;
    let found = first_in(sections, name)?;
    match found {
        Some(section) => read_bytes(alloc, source, log, tables.file_length(), section),
        None => Err(SectionError::NoSection),
    }
}

// The bytes of a section, read from a source of this length.
#[tactic(auto, unfolding(crate::specs::Named::bytes_of))]
fn read_bytes<F: Source>(
    alloc: Global,
    source: &F,
    log: &mut F::Log,
    len: u64,
    section: Section<'_>,
) -> Result<Vec<u8>, SectionError>
    ensures unwritten { IfErr result (λ e. e ≢ Write) }
    ensures reads { (file : List ℕ) → F.bytes source.now ≡ Some file → len ≡ length file
        → ReadsBytes (F.may_fail source.now) (bytes_of file (section_view section.entry)) result }
    ensures only { (file : List ℕ) → F.bytes source.now ≡ Some file → len ≡ length file
        → ReadsOnly (F.is_sure source.now) (F.logs_only log.old) (F.logs_only log.new)
        (bytes_parts file (section_view section.entry)) (IfErr result (λ e. e ≢ Unreadable)) }
{
    if !section.has_bytes {
        return Err(SectionError::NoBytes);
    }
    let end = section
        .offset
        .checked_add(section.size)
        .ok_or(SectionError::PastEnd)?;
    if end > len {
        return Err(SectionError::PastEnd);
    }
    Ok(part(alloc, source, log, section.offset, section.size)?)
}
