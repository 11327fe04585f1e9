//! The bytes of the first section of a name.

ghost use Rattle.std.specs.Prelude.{◌≡◌, ◌≢◌, ◌∷◌, ℕ, List, Ok, Some, IfErr};
ghost use Rattle.std.specs.Option.{option_map};
ghost use Rattle.std.specs.Str.{bytes_eq};
ghost use Rattle.binfarce.specs.Format.{format_of};
ghost use Rattle.binfarce.specs.Refusal.{Gives, refusal_of};
ghost use Rattle.binfarce.specs.Walk.{first};
ghost use Rattle.binfarce_bytes.specs.Source.{ReadsOnly};
ghost use Rattle.binfarce_sections.specs.Named.{full_name, is_named, bytes_of, bytes_named};
ghost use Rattle.binfarce_sections.specs.Parts.{named_parts_of};
ghost use Rattle.binfarce_sections.specs.Section.{sections_of};
ghost use Rattle.binfarce_sections.specs.Results.{Hands, TakesBytes, TakesRead, Fails};
ghost use Rattle.binfarce_sections.specs.Views.{section_view, sections_left};
ghost use Rattle.binfarce_sections.specs.declared.error.SectionError.TheVariants.{Unreadable};
ghost use Rattle.binfarce_sections.specs.machine.Found.{Finds};

use crate::error::SectionError;
use crate::sections::{Section, Sections, sections_of};
use crate::tables::read_named;
use binfarce::ParseError;
use binfarce_bytes::parser::{slice_at, to_index};
use binfarce_bytes::source::Source;
use binfarce_tools::list::Sink;
use binfarce_tools::writing::write_whole;
use std::alloc::Global;

/// The bytes of the first section of this name, a slice of the file; nothing is copied or allocated.
///
/// The format is the one that the file's first bytes name. In a Mach-O file the name is `SEGMENT,SECTION`, as
/// `__TEXT,__text`, or a section's name alone: the first of that name in any segment. In a PE file a name of more than
/// 8 bytes is the one in the string table, where it is there, and else the one in the section's header, as `/4`.
///
/// # Errors
///
/// `Unknown` if the format isn't one that is read; `Parse` if the reader refuses the file before the section is
/// found; `NoSection` if no section has the name; `NoBytes` where the section has no bytes in the file
/// (`SHT_NOBITS`, in Mach-O an offset of 0, in PE no raw data); `PastEnd` if its bytes end past the file.
#[tactic(auto, unfolding(crate::specs::Named::bytes_named))]
pub fn section_bytes<'a>(file: &'a [u8], name: &str) -> Result<&'a [u8], SectionError>
    ensures { Hands (λ b. b.now) (bytes_named (sections_of (format_of file.entry.now) file.entry.now) file.entry.now
        name.now) result }
{
    match first_section(file, name)? {
        Some(section) => bytes_of(file, section),
        None => Err(SectionError::NoSection),
    }
}

/// Writes the bytes of the first section of this name to the sink, as `section_bytes` gives them, without a copy.
///
/// # Errors
///
/// Those of `section_bytes`, before anything is written; `Write` if a write failed: a beginning of the bytes may
/// then be written.
pub fn write_section<S: Sink>(file: &[u8], name: &str, out: &mut S) -> Result<(), SectionError>
    ensures takes { TakesBytes (bytes_named (sections_of (format_of file.now) file.now) file.now name.now)
        (S.taken out.old) (S.taken out.new) result }
    ensures fails { Fails (S.has_failed out.old) (S.has_failed out.new) result }
{
    write_all(section_bytes(file, name)?, out)
}

// Writes all of the bytes.
fn write_all<S: Sink>(bytes: &[u8], out: &mut S) -> Result<(), SectionError>
    ensures takes { TakesBytes (Ok bytes.now) (S.taken out.old) (S.taken out.new) result }
    ensures fails { Fails (S.has_failed out.old) (S.has_failed out.new) result }
{
    write_whole(out, bytes).map_err(|_| SectionError::Write)
}

/// As `write_section`, from a source. Only these bytes are read: the first 8 bytes, those that `read_sections` of
/// `binfarce_tables` reads of a file of that format, and the section's bytes, into memory of its size.
///
/// # Errors
///
/// Those of `write_section`. Before anything is written, also `Unreadable` if the source can't be read at offsets,
/// or a read of it fails, and `OutOfMemory` if an allocation fails.
pub fn write_section_of<F: Source, S: Sink>(
    alloc: Global,
    source: &F,
    log: &mut F::Log,
    name: &str,
    out: &mut S,
) -> Result<(), SectionError>
    ensures takes { (file : List ℕ) → F.bytes source.now ≡ Some file
        → TakesRead (F.may_fail source.now) (bytes_named (sections_of (format_of file) file) file name.now)
        (S.taken out.old) (S.taken out.new) result }
    ensures fails { Fails (S.has_failed out.old) (S.has_failed out.new) result }
    ensures only { (file : List ℕ) → F.bytes source.now ≡ Some file
        → ReadsOnly (F.is_sure source.now) (F.logs_only log.old) (F.logs_only log.new)
        (named_parts_of file name.now) (IfErr result (λ e. e ≢ Unreadable)) }
{
    let bytes = read_named(alloc, source, log, name)?;
    write_all(bytes.as_slice(), out)
}

// The first section of this name.
fn first_section<'a>(file: &'a [u8], name: &str) -> Result<Option<Section<'a>>, SectionError>
    ensures { Finds (sections_of (format_of file.entry.now) file.entry.now) name.now result }
{
    Ok(first_in(sections_of(file)?, name)?)
}

// The first section with this name, of those that are left.
pub(crate) fn first_in<'a>(
    sections: Sections<'a>,
    name: &str,
) -> Result<Option<Section<'a>>, ParseError>
    ensures { Gives refusal_of (option_map section_view)
        (first (is_named name.now) (sections_left sections.entry)) result }
{
    match sections {
        Sections::Elf(sections) => sections.first_named(name),
        sections => first_of(sections, name),
    }
}

// The same by the sections' names as they are read.
fn first_of<'a>(sections: Sections<'a>, name: &str) -> Result<Option<Section<'a>>, ParseError>
    ensures { Gives refusal_of (option_map section_view)
        (first (is_named name.now) (sections_left sections.entry)) result }
{
    for section in sections {
        let section = section?;
        if is_named(&section, name) {
            return Ok(Some(section));
        }
    }
    Ok(None)
}

// The bytes of a section, a slice of the file.
#[tactic(auto, unfolding(crate::specs::Named::bytes_of))]
fn bytes_of<'a>(file: &'a [u8], section: Section<'_>) -> Result<&'a [u8], SectionError>
    ensures { Hands (λ b. b.now) (bytes_of file.entry.now (section_view section.entry)) result }
{
    if !section.has_bytes {
        return Err(SectionError::NoBytes);
    }
    let (start, size) = (to_index(section.offset), to_index(section.size));
    slice_at(file, start, size).map_err(|_| SectionError::PastEnd)
}

// Whether the word names the section.
fn is_named(section: &Section<'_>, word: &str) -> bool
    ensures { result ≡ is_named word.now (section_view section.now) }
{
    match (section.name, section.segment) {
        (None, _) => false,
        (Some(name), None) => word == name,
        (Some(name), Some(segment)) => word == name || is_full_name(word, segment, name),
    }
}

// Whether the word is a segment's name, a comma and a section's name.
fn is_full_name(word: &str, segment: &str, name: &str) -> bool
    ensures { result ≡ bytes_eq word.now (full_name segment.now name.now) }
{
    match word.as_bytes().strip_prefix(segment.as_bytes()) {
        Some(rest) => is_after_comma(rest, name.as_bytes()),
        None => false,
    }
}

// Whether the bytes are a comma and the name.
fn is_after_comma(bytes: &[u8], name: &[u8]) -> bool
    ensures { result ≡ bytes_eq bytes.now (44 ∷ name.now) }
{
    matches!(bytes, [b',', rest @ ..] if *rest == *name)
}
