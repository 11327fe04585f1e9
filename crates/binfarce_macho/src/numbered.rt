//! The sections of a file by their numbers, and which of them a selection takes.

ghost use Rattle.std.specs.Prelude.{◌≡◌, ◌≢◌, ◌+◌, ◌*◌, ◌<◌, ◌≤◌, ◌^◌, ◌++◌, ◌&&◌, ◌⊎◌, [], length, map, nat_le, take, All, None, Some, Ok, Err, IfOk, OnErr, MatchResult};
ghost use Rattle.std.specs.Option.{option_map};
ghost use Rattle.std.specs.String.{string_bytes};
ghost use Rattle.binfarce_bytes.specs.Refusal.{Gives, refusal_of, out_of_memory};
ghost use Rattle.binfarce_bytes.specs.Selection.{section_of};
ghost use Rattle.binfarce_macho.specs.Macho.{header_of, segment, segment_read, section_count, whole_headers};
ghost use Rattle.binfarce_macho.specs.MachoSections.{greatest_section, first_starts, starts_in, section_starts, HasSection, has_instructions, extent_at, full_name, name_at, numbered_at, numbered_sections, name_of};
ghost use Rattle.binfarce_macho.specs.MachoSelection.{is_code, code_among, code_of, code_view, sections_in, section_size, extent_view, numbered_view, sections_view};
ghost use Rattle.binfarce_macho.specs.MachoViews.{header_view, section_view};

use crate::commands::{LC_SEGMENT_64, commands};
use crate::header::MachoHeader;
use crate::sections::{SECTION_LENGTH, Section, flags_at, section_at};
use crate::symbols::Extent;
use binfarce_bytes::functions::Selection;
use binfarce_bytes::parser::number_at;
use binfarce_bytes::{ByteOrder, ParseError};
use std::alloc::{AllocError, Global};

// The greatest number of a section that a row can state (`MAX_SECT`).
pub(crate) const MAX_SECT: u8 = 255;

// `S_ATTR_PURE_INSTRUCTIONS` and `S_ATTR_SOME_INSTRUCTIONS`.
const S_ATTR_INSTRUCTIONS: u32 = 0x8000_0400;

/// A section: where it is in memory, whether it holds instructions, and its name as `SEGMENT,SECTION`, `None` if one
/// of the two isn't valid.
#[derive(Drop)]
pub struct NumberedSection {
    pub extent: Extent,
    pub has_instructions: bool,
    pub name: Option<String>,
}

/// The code section of a file, the first `__TEXT,__text`: its index among the sections, and its size in bytes.
#[derive(Clone, Copy)]
pub(crate) struct CodeSection {
    pub(crate) index: usize,
    pub(crate) size: u64,
}

/// The sections of a file, in the order of their numbers, of which all are selected or the code section alone.
#[derive(Drop)]
pub struct SelectedSections {
    pub(crate) sections: Vec<NumberedSection>,
    pub(crate) code: Option<CodeSection>,
}

impl SelectedSections {
    /// The size in bytes of the code section, where it alone is selected.
    pub fn size(&self) -> Option<u64>
        ensures { result ≡ section_size (sections_view self.now) }
    {
        match self.code {
            None => None,
            Some(code) => Some(code.size),
        }
    }

    /// The name of the section of this number, `SEGMENT,SECTION`; nothing is copied. `None` if there is no such
    /// section, and where one of its two names isn't valid.
    pub fn name(&self, number: u32) -> Option<&str>
        ensures { option_map (λ t. t.now) result ≡ name_of (sections_view self.entry.now).sections number }
    {
        name_of(&self.sections, number)
    }
}

fn name_of(sections: &[NumberedSection], number: u32) -> Option<&str>
    ensures { option_map (λ t. t.now) result ≡ name_of (map numbered_view sections.entry.now) number }
{
    let index = (number as usize).checked_sub(1)?;
    match &sections.get(index)?.name {
        None => None,
        Some(name) => Some(name.as_str()),
    }
}

/// The sections of a file with this header, of which this selection takes all, or by whatever name the code section.
/// Refused as `find_section` of a reader is with a callback that accepts none, and then with `SymbolsSectionIsMissing`
/// where the code section is selected and missing. `OutOfMemory` comes only if the file has a section.
#[tactic(auto, unfolding(crate::specs::MachoSelection::sections_in))]
pub fn selected_sections(
    alloc: Global,
    file: &[u8],
    header: MachoHeader,
    selection: Selection<'_>,
) -> Result<SelectedSections, ParseError>
    requires { header_view header ≡ header_of file.now }
    ensures { let section = section_of selection.entry in MatchResult result
        (λ sections. sections_in section file.now ≡ Ok (sections_view sections))
        (λ e. (sections_in section file.now ≡ Err (refusal_of e))
        ⊎ ((refusal_of e ≡ out_of_memory) × HasSection file.now)) }
{
    let sections = numbered_sections(alloc, file, header)?;
    let code = code_of(&sections, selection)?;
    Ok(SelectedSections { sections, code })
}

// The code section, where it is selected; refused if it is missing.
fn code_of(
    sections: &[NumberedSection],
    selection: Selection<'_>,
) -> Result<Option<CodeSection>, ParseError>
    ensures { Gives refusal_of (option_map code_view)
        (code_of (section_of selection.entry) (map numbered_view sections.now)) result }
{
    match selection {
        Selection::All => Ok(None),
        Selection::Section(_) => {
            let code = code_among(sections).ok_or(ParseError::SymbolsSectionIsMissing)?;
            Ok(Some(code))
        }
    }
}

fn code_among(sections: &[NumberedSection]) -> Option<CodeSection>
    ensures { option_map code_view result ≡ code_among 0 (map numbered_view sections.now) }
{
    for index in 0..sections.len() {
        let section = &sections[index];
        if is_code(section) {
            return Some(CodeSection {
                index,
                size: section.extent.size,
            });
        }
    }
    None
}

fn is_code(section: &NumberedSection) -> bool
    ensures { result ≡ is_code (numbered_view section.now).name }
{
    match &section.name {
        None => false,
        Some(name) => name.as_str() == "__TEXT,__text",
    }
}

// Where the structures of a file's sections begin, in the order of the sections' numbers, up to number 255. Refused as
// `find_section` of a reader is with a callback that accepts none; `OutOfMemory` comes only if the file has a
// section.
fn section_starts(alloc: Global, file: &[u8], header: MachoHeader) -> Result<Vec<usize>, ParseError>
    requires { header_view header ≡ header_of file.now }
    ensures { MatchResult result
        (λ v. (section_starts file.now ≡ Ok v.items) × All (λ start. start + 52 ≤ length file.now) v.items)
        (λ e. (section_starts file.now ≡ Err (refusal_of e))
        ⊎ ((refusal_of e ≡ out_of_memory) × HasSection file.now)) }
{
    let mut starts = Vec::new(alloc);
    for item in commands(file, header) {
        let command = item?;
        if command.kind == LC_SEGMENT_64 {
            push_sections(&mut starts, file, command.offset + 8)?;
        }
    }
    Ok(starts)
}

// Adds the sections of a segment command, up to number 255; refused if one is truncated.
fn push_sections(starts: &mut Vec<usize>, file: &[u8], body: usize) -> Result<(), ParseError>
    requires few { length starts.old.items ≤ greatest_section }
    requires held { All (λ start. start + 52 ≤ length file.now) starts.old.items }
    requires inside { body ≤ length file.now }
    ensures { MatchResult result
        (λ _. ((segment file.now body).refusal ≡ None)
        × (starts.new.items ≡ take greatest_section (starts.old.items ++ starts_in file.now body))
        × All (λ start. start + 52 ≤ length file.now) starts.new.items)
        (λ e. ((segment file.now body).refusal ≡ Some (refusal_of e))
        ⊎ ((refusal_of e ≡ out_of_memory) × (starts_in file.now body ≢ []))) }
{
    if !none_truncated(file, body) {
        return Err(ParseError::UnexpectedEof);
    }
    let count: u32 = number_at(file, body + 56, ByteOrder::LittleEndian)?;
    let room = usize::from(MAX_SECT) - starts.len();
    push_starts(starts, body, room.min(count as usize))?;
    Ok(())
}

// Whether no section of a segment command is truncated.
fn none_truncated(bytes: &[u8], body: usize) -> bool
    requires { body ≤ length bytes.now }
    ensures { result ≡ (nat_le (body + segment_read) (length bytes.now) && nat_le (section_count bytes.now body)
        (whole_headers bytes.now body)) }
{
    match number_at::<u32>(bytes, body + 56, ByteOrder::LittleEndian) {
        Err(_) => false,
        Ok(count) => count as usize
            <= (bytes.len() + 28).saturating_sub(body + 64) / SECTION_LENGTH,
    }
}

// Adds as many sections of a segment command.
fn push_starts(starts: &mut Vec<usize>, body: usize, count: usize) -> Result<(), AllocError>
    requires { body + 64 + count * 80 < 2 ^ 64 }
    ensures pushed { IfOk result (λ _. starts.new.items ≡ starts.old.items ++ first_starts body count) }
    ensures memory { OnErr result (0 < count) }
{
    for index in 0..count {
        starts.push(body + 64 + index * SECTION_LENGTH)?;
    }
    Ok(())
}

// The sections of a file with this header, in the order of their numbers.
#[tactic(auto, unfolding(crate::specs::MachoSections::numbered_sections))]
fn numbered_sections(
    alloc: Global,
    file: &[u8],
    header: MachoHeader,
) -> Result<Vec<NumberedSection>, ParseError>
    requires { header_view header ≡ header_of file.now }
    ensures { MatchResult result
        (λ v. numbered_sections file.now ≡ Ok (map numbered_view v.items))
        (λ e. (numbered_sections file.now ≡ Err (refusal_of e))
        ⊎ ((refusal_of e ≡ out_of_memory) × HasSection file.now)) }
{
    let starts = section_starts(alloc, file, header)?;
    Ok(sections_at(alloc, file, &starts)?)
}

// The sections whose structures begin there.
fn sections_at(
    alloc: Global,
    file: &[u8],
    starts: &[usize],
) -> Result<Vec<NumberedSection>, AllocError>
    requires { All (λ start. start + 52 ≤ length file.now) starts.now }
    ensures sections { IfOk result (λ v. map numbered_view v.items ≡ map (numbered_at file.now) starts.now) }
    ensures memory { OnErr result (starts.now ≢ []) }
{
    let mut sections = Vec::new(alloc);
    for start in starts {
        sections.push(numbered_at(alloc, file, *start)?)?;
    }
    Ok(sections)
}

#[tactic(auto, unfolding(crate::specs::MachoSections::numbered_at))]
fn numbered_at(alloc: Global, file: &[u8], start: usize) -> Result<NumberedSection, AllocError>
    requires { start + 52 ≤ length file.now }
    ensures { IfOk result (λ section. numbered_view section ≡ numbered_at file.now start) }
{
    Ok(NumberedSection {
        extent: extent_at(file, start),
        has_instructions: has_instructions(file, start),
        name: name_at(alloc, file, start)?,
    })
}

#[tactic(auto, unfolding(crate::specs::MachoSections::extent_at, crate::specs::Macho::section_fields))]
fn extent_at(file: &[u8], start: usize) -> Extent
    requires { start + 52 ≤ length file.now }
    ensures { extent_view result ≡ extent_at file.now start }
{
    Extent {
        address: number_at(file, start + 32, ByteOrder::LittleEndian).unwrap(),
        size: number_at(file, start + 40, ByteOrder::LittleEndian).unwrap(),
    }
}

#[tactic(auto, unfolding(crate::specs::MachoSections::has_instructions))]
fn has_instructions(file: &[u8], start: usize) -> bool
    requires { start ≤ length file.now }
    ensures { result ≡ has_instructions file.now start }
{
    flags_at(file, start) & S_ATTR_INSTRUCTIONS != 0
}

fn name_at(alloc: Global, file: &[u8], start: usize) -> Result<Option<String>, AllocError>
    requires { start + 52 ≤ length file.now }
    ensures { IfOk result (λ name. option_map string_bytes name ≡ name_at file.now start) }
{
    match section_at(file, start).unwrap() {
        None => Ok(None),
        Some(section) => Ok(Some(full_name(alloc, section)?)),
    }
}

fn full_name(alloc: Global, section: Section<'_>) -> Result<String, AllocError>
    ensures { IfOk result (λ name. string_bytes name ≡ full_name (section_view section.entry)) }
{
    let mut name = String::new(alloc);
    name.push_str(section.segment_name)?;
    name.push_str(",")?;
    name.push_str(section.section_name)?;
    Ok(name)
}
