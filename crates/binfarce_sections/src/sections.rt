//! The sections of a file of any format, one after the other.

ghost use Rattle.std.specs.Prelude.{◌≡◌, ◌⊎◌, ◌<◌, ◌≤◌, length, MatchResult};
ghost use Rattle.std.specs.Option.{option_map};
ghost use Rattle.binfarce.specs.ElfViews as elf_views;
ghost use Rattle.binfarce.specs.Format.{format_of};
ghost use Rattle.binfarce.specs.declared.Format.TheVariants.{Macho, PE};
ghost use Rattle.binfarce.specs.MachoViews as macho_views;
ghost use Rattle.binfarce.specs.PeViews as pe_views;
ghost use Rattle.binfarce.specs.Refusal.{Gives, refusal_of};
ghost use Rattle.binfarce.specs.Walk.{YieldsNext, first};
ghost use Rattle.binfarce_elf.specs.Classes.{class_of};
ghost use Rattle.binfarce_tables.specs.SectionReading.{sections_view};
ghost use Rattle.binfarce_sections.specs.Named.{is_named};
ghost use Rattle.binfarce_sections.specs.Section.{elf_named, macho_section, pe_section, pe_size, mapped, least_length, sections_of, elf_sections, macho_sections, pe_sections, pe_sections_by};
ghost use Rattle.binfarce_sections.specs.Views.{section_view, sections_left, elf_left, pe_left, named_by, Opens};
ghost use Rattle.binfarce_sections.specs.declared.error.SectionError.TheVariants.{Unknown};
ghost use Rattle.binfarce_sections.specs.machine.Opened.{OpensWalk};

use crate::error::SectionError;
use crate::kinds::SectionType;
use binfarce::{ByteOrder, Format, ParseError, detect_format, macho, pe};
use binfarce_elf::sections::{self as elf_sections, is_named_in, name_in};
use binfarce_elf_memory::parts::{AnySections, sections_of_file};
use binfarce_pe::header::parse_header;
use binfarce_pe::names::{full_name, strings_of};
use binfarce_pe::parts::places_after;
use binfarce_tables::Width;
use binfarce_tables::elf::SectionParts;

/// A section of a file of any format. Its names are slices of the file; nothing is copied.
#[derive(Debug, Clone, Copy)]
pub struct Section<'a> {
    /// In a Mach-O file the name of its segment (`segname`), as `__TEXT`; elsewhere `None`.
    pub segment: Option<&'a str>,
    /// Its name; `None` for an ELF section without one. In a PE file one of more than 8 bytes is in the string table; where
    /// it isn't there, this is the name in its header, as `/4`.
    pub name: Option<&'a str>,
    /// The address of its first byte in memory (`sh_addr`, `addr`); in a PE file counted from the image base
    /// (`VirtualAddress`).
    pub address: u64,
    /// Where its bytes begin in the file (`sh_offset`, `offset`, `PointerToRawData`), as the file states it.
    pub offset: u64,
    /// Its size in bytes (`sh_size`, `size`), as the file states it. In a PE file, the smaller one of `VirtualSize` and
    /// `SizeOfRawData`, or the other one where one is 0.
    pub size: u64,
    /// Whether it has bytes in the file: not in ELF where its type is `SHT_NOBITS`, not in Mach-O where it is filled
    /// with zeros by its type, or its offset is 0, and not in PE where `PointerToRawData` or `SizeOfRawData` is 0.
    pub has_bytes: bool,
    /// Its type.
    pub kind: SectionType,
    /// Its flags (`sh_flags`, `flags`, `Characteristics`); 0 in a Mach-O or PE file that ends before them.
    pub flags: u64,
    /// How many bytes it has in the file, as the file states it: its size, or 0 if it has none there. In a PE file
    /// `SizeOfRawData`, which an image rounds up.
    pub file_size: u64,
    /// How many bytes it has in memory: in ELF its size where its flags have `SHF_ALLOC`, else 0; in Mach-O its size; in
    /// PE `VirtualSize`, or `SizeOfRawData` if that is 0, as in an object file.
    pub memory_size: u64,
}

/// An iterator over the sections of a file, in file order. It borrows the file's bytes.
///
/// A section is read on demand. An error is given for one that can't be read; nothing follows it.
#[must_use = "iterators are lazy and do nothing unless consumed"]
#[derive(Clone, Drop)]
pub enum Sections<'a> {
    Elf(ElfSections<'a>),
    Macho(macho::Sections<'a>),
    Pe(PeSections<'a>),
}

/// The sections of an ELF file that are left, and the bytes of the section names, where the file has them.
#[derive(Clone, Drop)]
pub struct ElfSections<'a> {
    names: Option<&'a [u8]>,
    left: AnySections<'a>,
}

/// The sections of a PE file that are left, and the string table, where long names are.
#[derive(Clone, Drop)]
pub struct PeSections<'a> {
    strings: &'a [u8],
    left: pe::Sections<'a>,
}

impl<'a> Iterator for Sections<'a> {
    ghost use Rattle.binfarce.specs.Refusal.{refusal_of};
    ghost use Rattle.binfarce.specs.Walk.{YieldsNext, walk_count};
    ghost use Rattle.binfarce_sections.specs.Views.{section_view, sections_left};

    type Item = Result<Section<'a>, ParseError>;

    ghost next_gives = { λ before item after. YieldsNext refusal_of section_view (sections_left before) item
        (sections_left after) };

    ghost remaining = { λ s. walk_count (sections_left s) };

    fn next(&mut self) -> Option<Result<Section<'a>, ParseError>> {
        match self {
            Sections::Elf(sections) => sections.next(),
            Sections::Macho(left) => next_macho(left),
            Sections::Pe(sections) => sections.next(),
        }
    }
}

/// The sections of a file, in the format that its first bytes name. Nothing is allocated.
///
/// # Errors
///
/// `Unknown` if the format isn't supported; `Parse` if the file is too short for its header.
#[tactic(auto, unfolding(crate::specs::Section::sections_of))]
pub fn sections_of(file: &[u8]) -> Result<Sections<'_>, SectionError>
    ensures opens { Opens (sections_of (format_of file.entry.now) file.entry.now) result }
    ensures header { let least = least_length (format_of file.entry.now) file.entry.now in MatchResult result
        (λ _. least ≤ length file.entry.now)
        (λ e. (e ≡ Unknown) ⊎ (length file.entry.now < least)) }
{
    match detect_format(file) {
        Format::Elf32 { byte_order } => Ok(open_elf(file, Width::Bits32, byte_order)?),
        Format::Elf64 { byte_order } => Ok(open_elf(file, Width::Bits64, byte_order)?),
        Format::Macho => Ok(open_macho(file)?),
        Format::PE => Ok(open_pe_file(file)?),
        Format::Unknown => Err(SectionError::Unknown),
    }
}

fn open_elf(bytes: &[u8], width: Width, byte_order: ByteOrder) -> Result<Sections<'_>, ParseError>
    ensures opens { OpensWalk (elf_sections (class_of width) byte_order bytes.entry.now) result }
    ensures header { let least = (class_of width).header_length in MatchResult result
        (λ _. least ≤ length bytes.entry.now)
        (λ _. length bytes.entry.now < least) }
{
    let (left, names) = sections_of_file(bytes, width, byte_order)?;
    Ok(Sections::Elf(ElfSections { names, left }))
}

// The sections of a file, from its parts that were read.
pub(crate) fn elf_sections_of(parts: &SectionParts) -> Sections<'_>
    ensures { let seen = sections_view parts.entry.now in
        sections_left result ≡ mapped (elf_named (named_by seen.names)) seen.sections }
{
    let names = parts.names();
    let left = parts.sections();
    Sections::Elf(ElfSections { names, left })
}

pub(crate) fn open_macho(bytes: &[u8]) -> Result<Sections<'_>, ParseError>
    ensures opens { OpensWalk (macho_sections bytes.entry.now) result }
    ensures header { let least = least_length Macho bytes.entry.now in MatchResult result
        (λ _. least ≤ length bytes.entry.now)
        (λ _. length bytes.entry.now < least) }
{
    Ok(Sections::Macho(macho::parse(bytes)?.sections()))
}

fn open_pe_file(bytes: &[u8]) -> Result<Sections<'_>, ParseError>
    ensures opens { OpensWalk (pe_sections bytes.entry.now) result }
    ensures header { let least = least_length PE bytes.entry.now in MatchResult result
        (λ _. least ≤ length bytes.entry.now)
        (λ _. length bytes.entry.now < least) }
{
    let (signature, header) = parse_header(bytes)?;
    open_pe(bytes, strings_of(bytes, places_after(signature, header)))
}

// The sections of a file that begins with these bytes, with long names from this string table.
pub(crate) fn open_pe<'a>(bytes: &'a [u8], strings: &'a [u8]) -> Result<Sections<'a>, ParseError>
    ensures opens { OpensWalk (pe_sections_by strings.entry.now bytes.entry.now) result }
    ensures header { let least = least_length PE bytes.entry.now in MatchResult result
        (λ _. least ≤ length bytes.entry.now)
        (λ _. length bytes.entry.now < least) }
{
    let left = pe::parse(bytes)?.sections();
    Ok(Sections::Pe(PeSections { strings, left }))
}

impl<'a> ElfSections<'a> {
    // The first section that is left, or why it can't be read.
    fn next(&mut self) -> Option<Result<Section<'a>, ParseError>>
        ensures { YieldsNext refusal_of section_view (elf_left self.old) result (elf_left self.new) }
    {
        match self.left.next()? {
            Ok(section) => Some(Ok(elf_section(self.names, section))),
            Err(e) => Some(Err(e)),
        }
    }

    // The first section with this name, of those that are left. Names are compared and not read whole, since many long
    // ones can share their bytes.
    pub(crate) fn first_named(self, name: &str) -> Result<Option<Section<'a>>, ParseError>
        ensures { Gives refusal_of (option_map section_view)
            (first (is_named name.now) (elf_left self.entry)) result }
    {
        let ElfSections { names, left } = self;
        for section in left {
            let section = section?;
            if is_elf_named(names, &section, name) {
                return Ok(Some(elf_section(names, section)));
            }
        }
        Ok(None)
    }
}

fn next_macho<'a>(left: &mut macho::Sections<'a>) -> Option<Result<Section<'a>, ParseError>>
    ensures { YieldsNext refusal_of section_view (mapped macho_section left.old) result
        (mapped macho_section left.new) }
{
    Some(left.next()?.map(macho_section))
}

impl<'a> PeSections<'a> {
    // The first section that is left, or why it can't be read.
    fn next(&mut self) -> Option<Result<Section<'a>, ParseError>>
        ensures { YieldsNext refusal_of section_view (pe_left self.old) result (pe_left self.new) }
    {
        match self.left.next()? {
            Ok(section) => Some(Ok(pe_section(self.strings, section))),
            Err(e) => Some(Err(e)),
        }
    }
}

fn elf_section<'a>(names: Option<&'a [u8]>, section: elf_sections::Section<u64>) -> Section<'a>
    ensures { section_view result
        ≡ elf_named (named_by (option_map (λ b. b.now) names.entry)) (elf_views.section_view (λ n. n) section) }
{
    Section {
        segment: None,
        name: name_in(names, &section),
        address: section.address(),
        offset: section.offset(),
        size: section.size(),
        has_bytes: section.section_type() != SHT_NOBITS,
        kind: SectionType::Elf(section.section_type()),
        flags: section.flags(),
        file_size: section.file_size(),
        memory_size: section.memory_size(),
    }
}

#[tactic(auto, using(crate::proofs::FullNames::elf_names))]
fn is_elf_named(names: Option<&[u8]>, section: &elf_sections::Section<u64>, name: &str) -> bool
    ensures { result ≡ is_named name.now
        (elf_named (named_by (option_map (λ b. b.now) names.entry)) (elf_views.section_view (λ n. n) section.now)) }
{
    is_named_in(names, section, name)
}

fn macho_section(section: macho::Section<'_>) -> Section<'_>
    ensures { section_view result ≡ macho_section (macho_views.section_view section.entry) }
{
    Section {
        segment: Some(section.segment_name()),
        name: Some(section.name()),
        address: section.address(),
        offset: u64::from(section.offset()),
        size: section.size(),
        has_bytes: !(section.is_zero_filled() || section.offset() == 0),
        kind: SectionType::Macho(section.section_type()),
        flags: u64::from(section.flags()),
        file_size: section.file_size(),
        memory_size: section.size(),
    }
}

fn pe_section<'a>(strings: &'a [u8], section: pe::Section<'a>) -> Section<'a>
    ensures { section_view result ≡ pe_section strings.entry.now (pe_views.section_view section.entry) }
{
    Section {
        segment: None,
        name: Some(full_name(strings, section.name())),
        address: u64::from(section.address()),
        offset: u64::from(section.offset()),
        size: u64::from(pe_size(section.virtual_size(), section.size())),
        has_bytes: section.offset() != 0 && section.size() != 0,
        kind: SectionType::Pe,
        flags: u64::from(section.characteristics()),
        file_size: u64::from(section.file_size()),
        memory_size: u64::from(section.memory_size()),
    }
}

// The smaller one of `VirtualSize` and `SizeOfRawData`, or the other one where one is 0.
fn pe_size(virtual_size: u32, raw_size: u32) -> u32
    ensures { result ≡ pe_size virtual_size raw_size }
{
    match (virtual_size, raw_size) {
        (0, size) | (size, 0) => size,
        _ => virtual_size.min(raw_size),
    }
}

// A section of this type has no bytes in the file (gABI, "Sections").
const SHT_NOBITS: u32 = 8;
