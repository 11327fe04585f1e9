//! The section headers and the section names of an ELF file, read at their offsets.

ghost use Rattle.std.specs.Prelude.{◌≡◌, ◌≢◌, List, ℕ, Ok, Some, IfErr};
ghost use Rattle.std.specs.Option.{option_map};
ghost use Rattle.binfarce_bytes.specs.Source.{ReadsOnly};
ghost use Rattle.binfarce_elf.specs.Classes.{class_of};
ghost use Rattle.binfarce_elf.specs.Elf.{walk, name_among};
ghost use Rattle.binfarce_elf_memory.specs.ElfParts.{headers_alone, sections_left};
ghost use Rattle.binfarce_elf_memory.specs.ElfSelection.{name_of_index};
ghost use Rattle.binfarce_elf.specs.ElfViews.{section_view};
ghost use Rattle.binfarce_tables.specs.ElfReads.{elf_section_parts, headers_parts};
ghost use Rattle.binfarce_tables.specs.Reading.{Reads, Known};
ghost use Rattle.binfarce_tables.specs.SectionReading.{file_sections, sections_view};
ghost use Rattle.binfarce_tables.specs.declared.error.ReadError.TheVariants.{Unreadable};
ghost use Rattle.binfarce_tables.specs.machine.Places.{table_at};

use crate::elf::{read_names, read_place};
use crate::error::ReadError;
use crate::opened::{Opened, open};
use binfarce_bytes::ByteOrder;
use binfarce_bytes::source::Source;
use binfarce_elf::class::Width;
use binfarce_elf_memory::parts::{AnySections, HeaderTable, name_of_index, sections_in};
use std::alloc::Global;

/// The section headers of a file and the section names, in memory, and the file's length.
#[derive(Drop)]
pub struct SectionParts {
    pub(crate) headers: Vec<u8>,
    pub(crate) names: Option<Vec<u8>>,
    pub(crate) width: Width,
    pub(crate) place: HeaderTable,
    pub(crate) file_length: u64,
}

impl SectionParts {
    /// The sections in file order, as `sections` of a reader of the whole file gives them. Nothing is read.
    pub fn sections(&self) -> AnySections<'_>
        ensures { sections_left result ≡ (sections_view self.entry.now).sections }
    {
        let count = self.place.shnum;
        sections_in(&self.headers, self.width, self.place.byte_order, count)
    }

    /// The bytes of the section names, where the file has them. Nothing is copied.
    pub fn names(&self) -> Option<&[u8]>
        ensures { option_map (λ b. b.now) result ≡ (sections_view self.entry.now).names }
    {
        self.names.as_deref()
    }

    // The name of the section of this index, if there is one and it has a name.
    pub(crate) fn name_of(&self, number: u32) -> Option<&str>
        ensures { let seen = sections_view self.entry.now in
            option_map (λ t. t.now) result ≡ name_of_index seen.names seen.sections number }
    {
        name_of_index(
            &self.headers,
            self.names(),
            self.width,
            self.place.byte_order,
            self.place.shnum,
            number,
        )
    }

    /// How many bytes the file had when its parts were read.
    pub fn file_length(&self) -> u64
        ensures { result ≡ (sections_view self.now).file_length }
    {
        self.file_length
    }
}

/// Reads the section headers and the section names of a file of this class, numbers in the given order: the file header
/// of 52 or 64 bytes, the header of the section names' own section, the section names and all section headers. Each is
/// read once, into memory of its size, which is never more than the file has of it. No other byte is read, except the
/// first byte of a section header table without headers. The magic number isn't checked.
///
/// # Errors
///
/// `Refused` with `UnexpectedEof` if the file is too short for its header; `Unreadable` if the source can't be
/// read at offsets, or a read of it fails, and never for a source that can't fail, such as bytes in memory;
/// `OutOfMemory` if an allocation fails.
pub fn read_sections<S: Source>(
    alloc: Global,
    source: &S,
    log: &mut S::Log,
    width: Width,
    byte_order: ByteOrder,
) -> Result<SectionParts, ReadError>
    ensures answer { (file : List ℕ) → S.bytes source.now ≡ Some file
        → Reads (S.may_fail source.now) sections_view (file_sections (class_of width) byte_order file) result }
    ensures only { (file : List ℕ) → S.bytes source.now ≡ Some file
        → ReadsOnly (S.is_sure source.now) (S.logs_only log.old) (S.logs_only log.new)
        (elf_section_parts (class_of width) byte_order file) (IfErr result (λ e. e ≢ Unreadable)) }
{
    let opened = open(alloc, source)?;
    sections_of(&opened, log, width, byte_order)
}

// Reads them of an opened file.
pub(crate) fn sections_of<S: Source>(
    opened: &Opened<'_, S>,
    log: &mut S::Log,
    width: Width,
    byte_order: ByteOrder,
) -> Result<SectionParts, ReadError>
    ensures answer { (file : List ℕ) → Known (S.bytes opened.now.source.now) opened.now.len file
        → Reads (S.may_fail opened.now.source.now) sections_view
        (file_sections (class_of width) byte_order file) result }
    ensures only { (file : List ℕ) → Known (S.bytes opened.now.source.now) opened.now.len file
        → ReadsOnly (S.is_sure opened.now.source.now) (S.logs_only log.old) (S.logs_only log.new)
        (elf_section_parts (class_of width) byte_order file) (IfErr result (λ e. e ≢ Unreadable)) }
{
    let place = read_place(opened, log, width, byte_order)?;
    let names = read_names(opened, log, width, place)?;
    let headers = read_table(opened, log, width, place)?;
    Ok(SectionParts {
        headers,
        names,
        width,
        place,
        file_length: opened.len,
    })
}

// The section headers that are whole, up to the count. For a table without headers, its first byte if the file has it;
// for a table that begins past the file's end, nothing.
fn read_table<S: Source>(
    opened: &Opened<'_, S>,
    log: &mut S::Log,
    width: Width,
    place: HeaderTable,
) -> Result<Vec<u8>, ReadError>
    ensures answer { (file : List ℕ) → Known (S.bytes opened.now.source.now) opened.now.len file
        → Reads (S.may_fail opened.now.source.now)
        (λ v. walk (class_of width) (headers_alone place.byte_order v.items place.shnum))
        (Ok (walk (class_of width) (table_at file place))) result }
    ensures only { (file : List ℕ) → Known (S.bytes opened.now.source.now) opened.now.len file
        → ReadsOnly (S.is_sure opened.now.source.now) (S.logs_only log.old) (S.logs_only log.new)
        (headers_parts (class_of width) (table_at file place)) (IfErr result (λ e. e ≢ Unreadable)) }
{
    if place.shoff >= opened.len {
        return Ok(Vec::new(opened.alloc));
    }
    if place.shnum == 0 {
        return opened.part(log, place.shoff, 1);
    }
    let size = width.section_length() as u64;
    let whole = opened.len.saturating_sub(place.shoff) / size;
    let count = whole.min(place.shnum as u64);
    opened.part(log, place.shoff, count * size)
}
