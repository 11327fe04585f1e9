//! What says from which build a file is, in a line.

ghost use Rattle.std.specs.Prelude.{◌≡◌, ℕ, List, IfOk, Some};
ghost use Rattle.std.specs.String.{string_bytes};
ghost use Rattle.binfarce_bytes.specs.Format.{format_of};
ghost use Rattle.binfarce_identity.specs.Identity.{identity_view};
ghost use Rattle.binfarce_identity.specs.Line.{GivesLine, kind_name, kind_of, lacked, line_of, object_of, style_of};

use crate::identity::{Identity, Kind};
use crate::reading::read_identity;
use binfarce_bytes::format::Format;
use binfarce_bytes::source::Source;
use binfarce_rows::json::{push_start, push_text_member};
use binfarce_tables::ReadError;
use binfarce_tables::format::read_format;
use std::alloc::{AllocError, Global};

/// How the identity of a file is written.
#[derive(Debug, Clone, Copy, PartialEq)]
pub enum Style<'a> {
    /// Alone.
    Alone,
    /// Before this name of its file.
    Named(&'a str),
    /// As a JSON object, with this name of its file.
    Object(&'a str),
}

/// Why there is no line with the identity of a file.
#[derive(Debug, Clone, Copy, PartialEq)]
pub enum Lack {
    /// The format isn't one that is read.
    UnknownFormat,
    /// The file has no identity, which would be of this kind.
    NoIdentity(Kind),
    /// The file was not read, or is refused.
    Read(ReadError),
}

/// What a file lacks that has no identity of this kind, in words.
pub fn lacked(kind: Kind) -> &'static str
    ensures { result.now ≡ lacked kind }
{
    match kind {
        Kind::BuildId => "no build ID",
        Kind::Uuid => "no UUID",
        Kind::CodeView => "no GUID of a PDB file",
    }
}

impl From<ReadError> for Lack {
    ghost use Rattle.std.specs.Prelude.{◌≡◌};
    ghost use Rattle.binfarce_identity.specs.declared.line.Lack.TheVariants.{Read};

    ghost from_gives = { λ e lack. lack ≡ Read e };

    fn from(e: ReadError) -> Self {
        Lack::Read(e)
    }
}

impl From<AllocError> for Lack {
    ghost use Rattle.std.specs.Prelude.{◌≡◌};
    ghost use Rattle.binfarce_tables.specs.declared.error.ReadError.TheVariants.{OutOfMemory};
    ghost use Rattle.binfarce_identity.specs.declared.line.Lack.TheVariants.{Read};

    ghost from_gives = { λ _ lack. lack ≡ Read OutOfMemory };

    fn from(_: AllocError) -> Self {
        Lack::Read(ReadError::OutOfMemory)
    }
}

/// The line that says from which build a file is. The first 8 bytes, which name the format, and those that `read_identity`
/// reads are read.
///
/// # Errors
///
/// Why there is no line: the format is unknown, the file has no identity, or `read_identity` refuses or can't read it.
pub fn identity_line<S: Source>(
    alloc: Global,
    source: &S,
    log: &mut S::Log,
    style: Style<'_>,
) -> Result<String, Lack>
    ensures { (file : List ℕ) → S.bytes source.now ≡ Some file
        → GivesLine (S.may_fail source.now) (style_of style.entry) (format_of file) file result }
{
    let format = read_format(alloc, source, log)?;
    line_as(alloc, source, log, style, format)
}

// The line of a file of this format.
fn line_as<S: Source>(
    alloc: Global,
    source: &S,
    log: &mut S::Log,
    style: Style<'_>,
    format: Format,
) -> Result<String, Lack>
    ensures { (file : List ℕ) → S.bytes source.now ≡ Some file
        → GivesLine (S.may_fail source.now) (style_of style.entry) format file result }
{
    let Some(kind) = kind_of(&format) else {
        return Err(Lack::UnknownFormat);
    };
    match read_identity(alloc, source, log, format)? {
        Some(identity) => Ok(line_of(alloc, &identity, style)?),
        None => Err(Lack::NoIdentity(kind)),
    }
}

// The kind of identity that files of a format have.
fn kind_of(format: &Format) -> Option<Kind>
    ensures { result ≡ kind_of format.now }
{
    match format {
        Format::Elf32 { .. } | Format::Elf64 { .. } => Some(Kind::BuildId),
        Format::Macho => Some(Kind::Uuid),
        Format::PE => Some(Kind::CodeView),
        Format::Unknown => None,
    }
}

// The line of an identity.
fn line_of(alloc: Global, identity: &Identity, style: Style<'_>) -> Result<String, AllocError>
    ensures { IfOk result
        (λ line. string_bytes line ≡ line_of (style_of style.entry) (identity_view identity.now)) }
{
    let mut id = String::new(alloc);
    identity.push_text(&mut id)?;
    match style {
        Style::Alone => {
            id.push_str("\n")?;
            Ok(id)
        }
        Style::Named(name) => {
            id.push_str("  ")?;
            id.push_str(name)?;
            id.push_str("\n")?;
            Ok(id)
        }
        Style::Object(name) => object_of(alloc, name, identity.kind, id.as_str()),
    }
}

// The object of an identity of this kind and this text.
fn object_of(alloc: Global, name: &str, kind: Kind, id: &str) -> Result<String, AllocError>
    ensures { IfOk result (λ text. string_bytes text ≡ object_of name.now kind id.now) }
{
    let mut text = String::new(alloc);
    push_start(&mut text, name)?;
    push_text_member(&mut text, "id_kind", Some(kind_name(kind)))?;
    push_text_member(&mut text, "id", Some(id))?;
    text.push_str("}\n")?;
    Ok(text)
}

// The name of a kind.
fn kind_name(kind: Kind) -> &'static str
    ensures { result.now ≡ kind_name kind }
{
    match kind {
        Kind::BuildId => "build-id",
        Kind::Uuid => "uuid",
        Kind::CodeView => "codeview",
    }
}
