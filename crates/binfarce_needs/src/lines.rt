//! What is written of the symbols that a file needs.

ghost use Rattle.std.specs.Prelude.{◌≡◌, ◌++◌, ℕ, Bool, List, Some, IfOk, MatchResult, OnOk, map};
ghost use Rattle.std.specs.Option.{option_map};
ghost use Rattle.std.specs.String.{string_bytes};
ghost use Rattle.binfarce_bytes.specs.Format.{format_of};
ghost use Rattle.binfarce_rows.specs.Json.{style_of};
ghost use Rattle.binfarce_needs.specs.FileNeeds.{file_needs, need_view};
ghost use Rattle.binfarce_needs.specs.Lines.{AreRows, GivesText, IsLack, needs_in, row_of, unread, version_part};

use crate::needs::{Need, needs_of};
use crate::reading::read_needs;
use binfarce_bytes::ByteOrder;
use binfarce_bytes::format::Format;
use binfarce_bytes::source::Source;
use binfarce_figures::rows::{Naming, put_name, word_of};
use binfarce_names::demangle::Demangler;
use binfarce_rows::json::{Form, push_start, push_text_member};
use binfarce_tables::format::read_format;
use binfarce_tables::{ReadError, Width};
use std::alloc::{AllocError, Global};

/// A format of files of which it isn't read what they need.
#[derive(Debug, Clone, Copy, PartialEq)]
pub enum Other {
    /// Mach-O.
    Macho,
    /// PE.
    Pe,
}

/// Why it isn't shown what a file needs.
#[derive(Debug, Clone, Copy, PartialEq)]
pub enum Lack {
    /// The format isn't one that is read.
    UnknownFormat,
    /// The file is no ELF file, but one of this format.
    NotElf(Other),
    /// The file was not read, or is refused.
    Read(ReadError),
}

impl From<ReadError> for Lack {
    ghost use Rattle.std.specs.Prelude.{◌≡◌};
    ghost use Rattle.binfarce_needs.specs.declared.lines.Lack.TheVariants.{Read};

    ghost from_gives = { λ e lack. lack ≡ Read e };

    fn from(e: ReadError) -> Self {
        Lack::Read(e)
    }
}

impl From<AllocError> for Lack {
    ghost use Rattle.std.specs.Prelude.{◌≡◌};
    ghost use Rattle.binfarce_tables.specs.declared.error.ReadError.TheVariants.{OutOfMemory};
    ghost use Rattle.binfarce_needs.specs.declared.lines.Lack.TheVariants.{Read};

    ghost from_gives = { λ _ lack. lack ≡ Read OutOfMemory };

    fn from(_: AllocError) -> Self {
        Lack::Read(ReadError::OutOfMemory)
    }
}

/// Why it isn't shown what a file of this format needs, and what would help, in words.
pub fn unread(other: Other) -> &'static str
    ensures { result.now ≡ unread other }
{
    match other {
        Other::Macho => {
            "what is needed is read of ELF files alone; nm -um shows it of Mach-O files"
        }
        Other::Pe => {
            "what is needed is read of ELF files alone; objdump -p shows the imports of PE files"
        }
    }
}

/// A line for each symbol that an ELF file needs: what is shown of its name, and its version as `nm` writes it,
/// `memcpy@GLIBC_2.14`; or an object with the members `file`, `name`, `raw` (the stored name), `binding`, `version` and
/// `from`, the file that the version comes from. The first 8 bytes, which name the format, and those of `read_needs`
/// are read.
///
/// # Errors
///
/// Why there are none: the file isn't ELF, or `read_needs` refuses or can't read it.
pub fn needs_text<S: Source>(
    alloc: Global,
    source: &S,
    log: &mut S::Log,
    naming: Naming,
    form: Form<'_>,
) -> Result<String, Lack>
    ensures { (file : List ℕ) → S.bytes source.now ≡ Some file
        → GivesText (S.may_fail source.now) naming (style_of form.entry) (format_of file) file result }
{
    let format = read_format(alloc, source, log)?;
    text_as(alloc, source, log, naming, form, format)
}

// That of a file of this format.
fn text_as<S: Source>(
    alloc: Global,
    source: &S,
    log: &mut S::Log,
    naming: Naming,
    form: Form<'_>,
    format: Format,
) -> Result<String, Lack>
    ensures { (file : List ℕ) → S.bytes source.now ≡ Some file
        → GivesText (S.may_fail source.now) naming (style_of form.entry) format file result }
{
    let (width, byte_order) = class_of(format)?;
    let tables = read_needs(alloc, source, log, width, byte_order)?;
    let needs = needs_of(alloc, &tables, width, byte_order)?;
    Ok(text_of(alloc, &needs, naming, form)?)
}

// The class and the byte order of an ELF file.
fn class_of(format: Format) -> Result<(Width, ByteOrder), Lack>
    ensures { (may_fail : Bool) (file : List ℕ) → MatchResult result
        (λ class. needs_in format file ≡ Some (file_needs class.0 class.1 file))
        (λ lack. IsLack may_fail format file lack) }
{
    match format {
        Format::Elf32 { byte_order } => Ok((Width::Bits32, byte_order)),
        Format::Elf64 { byte_order } => Ok((Width::Bits64, byte_order)),
        Format::Macho => Err(Lack::NotElf(Other::Macho)),
        Format::PE => Err(Lack::NotElf(Other::Pe)),
        Format::Unknown => Err(Lack::UnknownFormat),
    }
}

// The rows of these symbols.
fn text_of(
    alloc: Global,
    needs: &[Need<'_>],
    naming: Naming,
    form: Form<'_>,
) -> Result<String, AllocError>
    ensures { IfOk result
        (λ t. AreRows naming (style_of form.entry) (map need_view needs.now) (string_bytes t)) }
{
    let mut demangler = Demangler::new(alloc);
    let mut name = String::new(alloc);
    let mut text = String::new(alloc);
    for need in needs {
        put_name(&mut demangler, &mut name, naming, need.name)?;
        push_row(&mut text, form, name.as_str(), need)?;
    }
    Ok(text)
}

// Appends the row of a symbol with this name.
fn push_row(
    text: &mut String,
    form: Form<'_>,
    name: &str,
    need: &Need<'_>,
) -> Result<(), AllocError>
    ensures { OnOk result (string_bytes text.new
        ≡ string_bytes text.old ++ row_of (style_of form.entry) name.now (need_view need.entry.now)) }
{
    match form {
        Form::Lines => {
            text.push_str(name)?;
            push_version(text, need.version)?;
            text.push_str("\n")
        }
        Form::Objects(file, _) => {
            push_start(text, file)?;
            push_text_member(text, "name", Some(name))?;
            push_text_member(text, "raw", Some(need.name))?;
            push_text_member(text, "binding", word_of(need.info / 16))?;
            push_text_member(text, "version", need.version)?;
            push_text_member(text, "from", need.from)?;
            text.push_str("}\n")
        }
    }
}

// Appends a version after a name, if there is one.
fn push_version(text: &mut String, version: Option<&str>) -> Result<(), AllocError>
    ensures { OnOk result (string_bytes text.new
        ≡ string_bytes text.old ++ version_part (option_map (λ t. t.now) version.entry)) }
{
    let Some(version) = version else {
        return Ok(());
    };
    text.push_str("@")?;
    text.push_str(version)
}
