//! The section header table of a file of either class, and the sections found in it alone.

ghost use Rattle.std.specs.Prelude.{◌≡◌, ◌+◌, ◌<◌, ◌≤◌, ℕ, List, length, IfOk, MatchResult};
ghost use Rattle.std.specs.Option.{option_map};
ghost use Rattle.binfarce_bytes.specs.Refusal.{Gives, refusal_of, unexpected_eof};
ghost use Rattle.binfarce_bytes.specs.Selection.{section_of};
ghost use Rattle.binfarce_elf.specs.Classes.{class_of};
ghost use Rattle.binfarce_elf.specs.Elf.{walk, names_bytes, section_at, section_table};
ghost use Rattle.binfarce_elf.specs.ElfViews.{section_view};
ghost use Rattle.binfarce_elf.specs.SymbolTables.{TableRows};
ghost use Rattle.binfarce_elf.specs.machine.RawElf.{table_view};
ghost use Rattle.binfarce_elf_memory.specs.ElfEnds.{has_modes};
ghost use Rattle.binfarce_elf_memory.specs.ElfParts.{IsPlaceOf, headers_alone, sections_left};
ghost use Rattle.binfarce_elf_memory.specs.ElfSelection.{name_of_index, needed, taken_from};
ghost use Rattle.binfarce_elf_memory.specs.SelectionViews.{kind_view, needed_view, sized_from, taken_view};
ghost use Rattle.binfarce_elf_memory.specs.Versions as versions;

use crate::ends::{FileKind, keys_of, kind_of, sizes_of};
use crate::selection::{Needed, Taken, needed_of};
use crate::versions::{DEFINITIONS, NEEDS, VERSIONS, whole_section_of_kind};
use binfarce_bytes::functions::Selection;
use binfarce_bytes::parser::UnexpectedEof;
use binfarce_bytes::{ByteOrder, ParseError};
use binfarce_elf::class::{Class, Half, Width, Word};
use binfarce_elf::header::parse_header;
use binfarce_elf::sections::{
    self, Section, Sections, Table, name_in, names_bytes, section_table, sections_of,
};
use binfarce_elf::symbol_table::SymbolTable;
use binfarce_elf::symbols::Rows;
use std::alloc::{AllocError, Global};

/// The file header's fields for the section headers, the file's type and machine, and its byte order.
#[derive(Clone, Copy)]
pub struct HeaderTable {
    pub byte_order: ByteOrder,
    pub shoff: u64,
    pub shnum: Half,
    pub shstrndx: Half,
    pub kind: FileKind,
    /// Where the program headers begin, and their number.
    pub phoff: u64,
    pub phnum: Half,
}

/// These fields of the header of a file of this class. `UnexpectedEof` if the header is truncated.
pub fn place_in(file: &[u8], width: Width, byte_order: ByteOrder) -> Result<HeaderTable, ParseError>
    ensures { MatchResult result
        (λ p. ((class_of width).header_length ≤ length file.now)
        × IsPlaceOf (class_of width) byte_order file.now p)
        (λ e. (length file.now < (class_of width).header_length) × (refusal_of e ≡ unexpected_eof)) }
{
    match width {
        Width::Bits32 => place_of::<u32>(file, byte_order),
        Width::Bits64 => place_of::<u64>(file, byte_order),
    }
}

fn place_of<C: Class>(file: &[u8], byte_order: ByteOrder) -> Result<HeaderTable, ParseError>
    ensures { MatchResult result
        (λ p. (C.table.header_length ≤ length file.now) × IsPlaceOf C.table byte_order file.now p)
        (λ e. (length file.now < C.table.header_length) × (refusal_of e ≡ unexpected_eof)) }
{
    let header = parse_header::<C>(file, byte_order)?;
    Ok(HeaderTable {
        byte_order,
        shoff: header.shoff.widened(),
        shnum: header.shnum,
        shstrndx: header.shstrndx,
        kind: kind_of(&header),
        phoff: header.phoff.widened(),
        phnum: header.phnum,
    })
}

/// The section header at `start` in a file of this class; refused if it is truncated.
#[inline(always)]
pub fn section_at(
    bytes: &[u8],
    start: usize,
    width: Width,
    byte_order: ByteOrder,
    index: Half,
) -> Result<Section<u64>, UnexpectedEof>
    ensures { MatchResult result
        (λ s. (start + (class_of width).section_length ≤ length bytes.now)
        × (section_view (λ n. n) s ≡ section_at (class_of width) byte_order bytes.now start index))
        (λ _. length bytes.now < start + (class_of width).section_length) }
{
    match width {
        Width::Bits32 => Ok(sections::section_at::<u32>(
            bytes, start, byte_order, index,
        )?.widened()),
        Width::Bits64 => sections::section_at::<u64>(bytes, start, byte_order, index),
    }
}

/// The sections that a selection's symbols need, found in these section headers, whose names are in `names`. Refused as
/// `functions` of a reader is, up to the string table's type.
pub fn needed_in(
    headers: &[u8],
    width: Width,
    place: HeaderTable,
    names: Option<&[u8]>,
    which: SymbolTable,
    selection: Selection<'_>,
) -> Result<Needed, ParseError>
    ensures { Gives refusal_of needed_view
        (needed which (walk (class_of width) (headers_alone place.byte_order headers.now place.shnum))
        (option_map (λ b. b.now) names.entry) place.shnum (section_of selection.entry)) result }
{
    let table = headers_alone(headers, place.byte_order, place.shnum);
    match width {
        Width::Bits32 => needed_of::<u32>(table, names, which, selection),
        Width::Bits64 => needed_of::<u64>(table, names, which, selection),
    }
}

/// The sections of the versions of a symbol table's rows, of their definitions, and of those that are needed of other
/// files.
#[derive(Clone, Copy)]
pub struct VersionSections {
    pub versions: Option<Section<u64>>,
    pub definitions: Option<Section<u64>>,
    pub needs: Option<Section<u64>>,
}

/// Those of this symbol table, found in these section headers. There are none where they aren't whole.
pub fn version_sections(
    headers: &[u8],
    width: Width,
    place: HeaderTable,
    which: SymbolTable,
) -> VersionSections
    ensures versions { option_map (section_view (λ n. n)) result.versions ≡ versions.versions_section which
        (walk (class_of width) (headers_alone place.byte_order headers.now place.shnum)) }
    ensures definitions { option_map (section_view (λ n. n)) result.definitions ≡ versions.definitions_section which
        (walk (class_of width) (headers_alone place.byte_order headers.now place.shnum)) }
    ensures needs { option_map (section_view (λ n. n)) result.needs ≡ versions.needs_section which
        (walk (class_of width) (headers_alone place.byte_order headers.now place.shnum)) }
{
    let table = headers_alone(headers, place.byte_order, place.shnum);
    match (which, width) {
        (SymbolTable::Symtab, _) => VersionSections {
            versions: None,
            definitions: None,
            needs: None,
        },
        (SymbolTable::Dynsym, Width::Bits32) => VersionSections {
            versions: widened(whole_section_of_kind::<u32>(table, VERSIONS)),
            definitions: widened(whole_section_of_kind::<u32>(table, DEFINITIONS)),
            needs: widened(whole_section_of_kind::<u32>(table, NEEDS)),
        },
        (SymbolTable::Dynsym, Width::Bits64) => VersionSections {
            versions: whole_section_of_kind::<u64>(table, VERSIONS),
            definitions: whole_section_of_kind::<u64>(table, DEFINITIONS),
            needs: whole_section_of_kind::<u64>(table, NEEDS),
        },
    }
}

fn widened(section: Option<Section<u32>>) -> Option<Section<u64>>
    ensures { option_map (section_view (λ n. n)) result ≡ option_map (section_view (λ n. n)) section }
{
    Some(section?.widened())
}

/// The sizes in memory of all rows of a symbol table, for a selection of all sections: for one section none. The rows'
/// names are in these strings. The only error is a failed allocation.
pub fn sizes_in(
    alloc: Global,
    headers: &[u8],
    width: Width,
    place: HeaderTable,
    taken: Taken,
    rows: &[u8],
    strings: &[u8],
) -> Result<Vec<u64>, AllocError>
    ensures { (versions : List ℕ) → let found : TableRows = record { strings = strings.now; rows = rows.now } in
        IfOk result (λ v. sized_from (class_of width) place.byte_order (taken_view taken)
        (has_modes (kind_view place.kind)) found versions v.items 0 ≡ taken_from (class_of width) place.byte_order
        (walk (class_of width) (headers_alone place.byte_order headers.now place.shnum)) (kind_view place.kind)
        (taken_view taken) found versions) }
{
    if taken.size().is_some() {
        return Ok(Vec::new(alloc));
    }
    let table = headers_alone(headers, place.byte_order, place.shnum);
    let found = Rows { strings, rows };
    let keys = match width {
        Width::Bits32 => keys_of::<u32>(alloc, table, place.kind, found)?,
        Width::Bits64 => keys_of::<u64>(alloc, table, place.kind, found)?,
    };
    sizes_of(
        alloc,
        &keys,
        width,
        place.byte_order,
        place.kind.has_modes(),
        rows,
    )
}

/// An iterator over the sections of a file of either class, in file order, with values of the wider class's types.
#[must_use = "iterators are lazy and do nothing unless consumed"]
#[derive(Clone, Drop)]
pub enum AnySections<'a> {
    Narrow(Sections<'a, u32>),
    Wide(Sections<'a, u64>),
}

impl<'a> Iterator for AnySections<'a> {
    ghost use Rattle.binfarce_bytes.specs.Refusal.{refusal_of};
    ghost use Rattle.binfarce_bytes.specs.Walk.{YieldsNext, walk_count};
    ghost use Rattle.binfarce_elf_memory.specs.ElfParts.{sections_left};
    ghost use Rattle.binfarce_elf.specs.ElfViews.{section_view};

    type Item = Result<Section<u64>, ParseError>;

    ghost next_gives = { λ before item after. YieldsNext refusal_of (section_view (λ n. n)) (sections_left before) item
        (sections_left after) };

    ghost remaining = { λ s. walk_count (sections_left s) };

    fn next(&mut self) -> Option<Result<Section<u64>, ParseError>> {
        match self {
            AnySections::Narrow(sections) => match sections.next() {
                Some(Ok(section)) => Some(Ok(section.widened())),
                Some(Err(e)) => Some(Err(e)),
                None => None,
            },
            AnySections::Wide(sections) => sections.next(),
        }
    }
}

/// The sections of `count` section headers, in order; `UnexpectedEof` if a header is truncated, or there are no
/// bytes.
pub fn sections_in(
    headers: &[u8],
    width: Width,
    byte_order: ByteOrder,
    count: Half,
) -> AnySections<'_>
    ensures { sections_left result ≡ walk (class_of width) (headers_alone byte_order headers.entry.now count) }
{
    let table = headers_alone(headers, byte_order, count);
    match width {
        Width::Bits32 => AnySections::Narrow(sections_of::<u32>(table)),
        Width::Bits64 => AnySections::Wide(sections_of::<u64>(table)),
    }
}

/// The sections of a file of this class, in order, and the section names, where the file has them. Nothing is copied.
/// `UnexpectedEof` if the file header is truncated.
pub fn sections_of_file(
    file: &[u8],
    width: Width,
    byte_order: ByteOrder,
) -> Result<(AnySections<'_>, Option<&[u8]>), ParseError>
    ensures { let table = section_table (class_of width) (record { order = byte_order; bytes = file.entry.now }) in
        MatchResult result
        (λ r. ((class_of width).header_length ≤ length file.entry.now)
        × (sections_left r.0 ≡ walk (class_of width) table)
        × (option_map (λ b. b.now) r.1 ≡ names_bytes (class_of width) table))
        (λ e. (length file.entry.now < (class_of width).header_length) × (refusal_of e ≡ unexpected_eof)) }
{
    match width {
        Width::Bits32 => {
            let table = table_in::<u32>(file, byte_order)?;
            let left = AnySections::Narrow(sections_of::<u32>(table));
            Ok((left, names_bytes::<u32>(table)))
        }
        Width::Bits64 => {
            let table = table_in::<u64>(file, byte_order)?;
            let left = AnySections::Wide(sections_of::<u64>(table));
            Ok((left, names_bytes::<u64>(table)))
        }
    }
}

fn table_in<C: Class>(file: &[u8], byte_order: ByteOrder) -> Result<Table<'_>, ParseError>
    ensures { MatchResult result
        (λ t. (C.table.header_length ≤ length file.entry.now)
        × (table_view t ≡ section_table C.table (record { order = byte_order; bytes = file.entry.now })))
        (λ e. (length file.entry.now < C.table.header_length) × (refusal_of e ≡ unexpected_eof)) }
{
    let header = parse_header::<C>(file, byte_order)?;
    Ok(section_table(file, byte_order, &header))
}

/// The name among these section names of the section of this index, one of `count` section headers.
#[inline(always)]
pub fn name_of_index<'a>(
    headers: &[u8],
    names: Option<&'a [u8]>,
    width: Width,
    byte_order: ByteOrder,
    count: Half,
    index: Word,
) -> Option<&'a str>
    ensures { option_map (λ t. t.now) result ≡ name_of_index (option_map (λ b. b.now) names.entry)
        (walk (class_of width) (headers_alone byte_order headers.now count)) index }
{
    if index >= u32::from(count) {
        return None;
    }
    let start = index as usize * width.section_length();
    match section_at(headers, start, width, byte_order, index as Half) {
        Ok(section) => name_in(names, &section),
        Err(_) => None,
    }
}

/// These section headers alone, as a table that begins at its first byte.
pub fn headers_alone(headers: &[u8], byte_order: ByteOrder, count: Half) -> Table<'_>
    ensures { table_view result ≡ headers_alone byte_order headers.entry.now count }
{
    Table {
        data: headers,
        byte_order,
        shoff: 0,
        shnum: count,
        shstrndx: 0,
    }
}
