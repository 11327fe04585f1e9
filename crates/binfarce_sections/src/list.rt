//! Lists the sections of an executable, a line each.

ghost use Rattle.std.specs.Prelude.{◌≡◌, ◌≢◌, ◌++◌, ℕ, List, Some, OnOk, IfOk, IfErr};
ghost use Rattle.std.specs.Option.{option_map};
ghost use Rattle.std.specs.String.{string_bytes};
ghost use Rattle.binfarce.specs.Format.{format_of};
ghost use Rattle.binfarce_bytes.specs.Source.{ReadsOnly};
ghost use Rattle.binfarce_sections.specs.Lines.{section_line, section_object, section_row, line_head, name_text, type_member};
ghost use Rattle.binfarce_rows.specs.Json.{lines, style_of};
ghost use Rattle.binfarce_sections.specs.Parts.{section_parts_of};
ghost use Rattle.binfarce_sections.specs.Section.{sections_of};
ghost use Rattle.binfarce_sections.specs.Results.{TakesLines, TakesReadLines, Fails};
ghost use Rattle.binfarce_sections.specs.Views.{section_view, sections_left};
ghost use Rattle.binfarce_sections.specs.declared.error.SectionError.TheVariants.{Unreadable};
ghost use Rattle.binfarce_sections.specs.machine.Listed.{Lists};

use crate::error::SectionError;
use crate::kinds::SectionType;
use crate::sections::{Section, Sections, sections_of};
use crate::tables::read;
use binfarce::ParseError;
use binfarce_bytes::source::Source;
use binfarce_rows::json::{
    Form, push_address_member, push_number_member, push_start, push_text_member,
};
use binfarce_tools::list::Sink;
use binfarce_tools::writing::write_whole;
use std::alloc::{AllocError, Global};
use std::fmt::Write;

/// Lists the sections of a file in file order, a line each, up to the first one that the reader refuses.
///
/// The format is the one that the file's first bytes name. A line is `{address:016x} {offset:>10} {size:>10} {name}`,
/// with the offset in the file and the size in bytes; in a Mach-O file the name is `SEGMENT,SECTION`. Names are written
/// as they are, whatever characters they hold. All lines are made before the first byte is written.
///
/// # Errors
///
/// `Unknown` if the format isn't supported, and `OutOfMemory` if an allocation failed: nothing is written then.
/// `Parse` if the reader refuses the next section: the lines of those before are written. `Write` if a write
/// failed: a beginning of the lines may then be written.
pub fn list_sections<S: Sink>(alloc: Global, file: &[u8], out: &mut S) -> Result<(), SectionError>
    ensures takes { TakesLines lines (sections_of (format_of file.now) file.now) (S.taken out.old)
        (S.taken out.new) result }
    ensures fails { Fails (S.has_failed out.old) (S.has_failed out.new) result }
{
    let sections = match sections_of(file) {
        Ok(sections) => sections,
        Err(e) => return Err(e),
    };
    write_lines(alloc, sections, Form::Lines, out)
}

/// As `list_sections`, from a source, in either form; an object has the members `file`, `segment`, `section`,
/// `address`, `offset`, `size`, `type` (its name, or its number where it has none) and `flags`, and `null` for a name
/// or a type that isn't there. Of the source only these bytes are read: the
/// first 8 bytes, and those that `read_sections` of `binfarce_tables` reads of a file of that format.
///
/// # Errors
///
/// Those of `list_sections`, and `Unreadable` if the source can't be read at offsets, or a read of it fails: nothing
/// is written then.
pub fn list_source<F: Source, S: Sink>(
    alloc: Global,
    source: &F,
    log: &mut F::Log,
    form: Form<'_>,
    out: &mut S,
) -> Result<(), SectionError>
    ensures takes { (file : List ℕ) → F.bytes source.now ≡ Some file
        → TakesReadLines (style_of form.entry) (F.may_fail source.now) (sections_of (format_of file) file)
        (S.taken out.old)
        (S.taken out.new) result }
    ensures fails { Fails (S.has_failed out.old) (S.has_failed out.new) result }
    ensures only { (file : List ℕ) → F.bytes source.now ≡ Some file
        → ReadsOnly (F.is_sure source.now) (F.logs_only log.old) (F.logs_only log.new)
        (section_parts_of file) (IfErr result (λ e. e ≢ Unreadable)) }
{
    let tables = read(alloc, source, log)?;
    let sections = tables.sections()?;
    write_lines(alloc, sections, form, out)
}

// Writes the lines of all sections that are left.
fn write_lines<S: Sink>(
    alloc: Global,
    sections: Sections<'_>,
    form: Form<'_>,
    out: &mut S,
) -> Result<(), SectionError>
    ensures takes { TakesLines (style_of form.entry) (Some (sections_left sections.entry)) (S.taken out.old)
        (S.taken out.new) result }
    ensures fails { Fails (S.has_failed out.old) (S.has_failed out.new) result }
{
    let (text, refusal) = lines_of(alloc, sections, form)?;
    write_whole(out, text.as_bytes()).map_err(|_| SectionError::Write)?;
    refusal.map_or(Ok(()), |e| Err(SectionError::Parse(e)))
}

// The lines of all sections that are left, and the refusal that ends them.
fn lines_of(
    alloc: Global,
    sections: Sections<'_>,
    form: Form<'_>,
) -> Result<(String, Option<ParseError>), AllocError>
    ensures { IfOk result (Lists (style_of form.entry) (sections_left sections.entry)) }
{
    let mut text = String::new(alloc);
    for section in sections {
        match section {
            Ok(section) => push_row(&mut text, form, section)?,
            Err(e) => return Ok((text, Some(e))),
        }
    }
    Ok((text, None))
}

// Appends a section to the text.
fn push_row(text: &mut String, form: Form<'_>, section: Section<'_>) -> Result<(), AllocError>
    ensures { OnOk result
        (string_bytes text.new ≡ string_bytes text.old
        ++ section_row (style_of form.entry) (section_view section.entry)) }
{
    match form {
        Form::Lines => push_line(text, section),
        Form::Objects(file, _) => push_object(text, file, section),
    }
}

// Appends a section as a JSON object.
fn push_object(text: &mut String, file: &str, section: Section<'_>) -> Result<(), AllocError>
    ensures { OnOk result
        (string_bytes text.new ≡ string_bytes text.old ++ section_object file.now (section_view section.entry)) }
{
    push_start(text, file)?;
    push_text_member(text, "segment", section.segment)?;
    push_text_member(text, "section", section.name)?;
    push_address_member(text, section.address)?;
    push_number_member(text, "offset", section.offset)?;
    push_number_member(text, "size", section.size)?;
    push_type_member(text, section.kind)?;
    push_number_member(text, "flags", section.flags)?;
    text.push_str("}\n")?;
    Ok(())
}

/// Appends the member `type`, after a comma: the type's name, or if it has none its number; `null` in PE.
pub(crate) fn push_type_member(text: &mut String, kind: SectionType) -> Result<(), AllocError>
    ensures { OnOk result (string_bytes text.new ≡ string_bytes text.old ++ type_member kind) }
{
    match (kind.name(), kind.number()) {
        (Some(name), _) => push_text_member(text, "type", Some(name)),
        (None, Some(number)) => push_number_member(text, "type", u64::from(number)),
        (None, None) => push_text_member(text, "type", None),
    }
}

// Appends the line of a section to the text.
fn push_line(text: &mut String, section: Section<'_>) -> Result<(), AllocError>
    ensures { OnOk result (string_bytes text.new ≡ string_bytes text.old
        ++ section_line (section_view section.entry)) }
{
    push_head(text, section.address, section.offset, section.size)?;
    push_name(text, section.segment, section.name)?;
    text.push_str("\n")
}

// Writes the numbers before a section's name.
#[tactic(auto, using(binfarce_rows::proofs::Pads::address_padded, binfarce_rows::proofs::Pads::size_padded))]
fn push_head(text: &mut String, address: u64, offset: u64, size: u64) -> Result<(), AllocError>
    ensures { OnOk result (string_bytes text.new ≡ string_bytes text.old ++ line_head address offset size) }
{
    write!(text, "{address:016x} {offset:>10} {size:>10} ")
}

// Writes a section's name, in Mach-O after its segment's.
pub(crate) fn push_name(
    text: &mut String,
    segment: Option<&str>,
    name: Option<&str>,
) -> Result<(), AllocError>
    ensures { OnOk result
        (string_bytes text.new
        ≡ string_bytes text.old
        ++ name_text (option_map (λ t. t.now) segment.entry) (option_map (λ t. t.now) name.entry)) }
{
    let Some(name) = name else {
        return Ok(());
    };
    if let Some(segment) = segment {
        text.push_str(segment)?;
        text.push_str(",")?;
    }
    text.push_str(name)
}
