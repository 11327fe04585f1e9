//! The identity of a file that is read at offsets.

ghost use Rattle.std.specs.Prelude.{◌≡◌, ◌≢◌, ◌+◌, ◌≤◌, List, ℕ, Ok, Some, length, IfOk, IfErr};
ghost use Rattle.std.specs.Option.{option_map};
ghost use Rattle.binfarce_bytes.specs.Number.{bytes_at};
ghost use Rattle.binfarce_bytes.specs.Part.{whole_part};
ghost use Rattle.binfarce_bytes.specs.Refusal.{if_as_long_as};
ghost use Rattle.binfarce_bytes.specs.Source.{ReadsOnly};
ghost use Rattle.binfarce_tables.specs.Reading.{Reads, Known};
ghost use Rattle.binfarce_tables.specs.declared.error.ReadError.TheVariants.{Unreadable};
ghost use Rattle.binfarce_identity.specs.FileIdentity.{identity_of, identity_parts, identity_reading};
ghost use Rattle.binfarce_identity.specs.Identity.{identity_view};
ghost use Rattle.binfarce_identity.specs.Reading.{Does};

use crate::elf::read_elf;
use crate::identity::Identity;
use crate::macho::read_macho;
use crate::pe::read_pe;
use binfarce_bytes::ParseError;
use binfarce_bytes::format::Format;
use binfarce_bytes::source::Source;
use binfarce_tables::{Opened, ReadError, Width, open};
use std::alloc::Global;

/// What says from which build a file of this format is: of ELF the first build ID among the notes of its sections, or of
/// a file without section headers among those of its segments; of Mach-O its UUID; of PE the GUID and the age of its
/// CodeView record. `None` if the file has none, and for an unknown format. Only what states it is read, each part into
/// memory of its size, which is never more than the file has of it.
///
/// # Errors
///
/// `Refused` with `UnexpectedEof` if the file is too short for its header, or what is read ends past it, and with
/// `MalformedInput` for a note that ends past its section, a bad load command, or a debug directory in no section;
/// `Unreadable` if the source can't be read at offsets, or a read of it fails, and never for a source that can't fail,
/// such as bytes in memory; `OutOfMemory` if an allocation fails.
pub fn read_identity<S: Source>(
    alloc: Global,
    source: &S,
    log: &mut S::Log,
    format: Format,
) -> Result<Option<Identity>, ReadError>
    ensures answer { (file : List ℕ) → S.bytes source.now ≡ Some file
        → Reads (S.may_fail source.now) (option_map identity_view) (identity_of format file) result }
    ensures only { (file : List ℕ) → S.bytes source.now ≡ Some file
        → ReadsOnly (S.is_sure source.now) (S.logs_only log.old) (S.logs_only log.new)
        (identity_parts format file) (IfErr result (λ e. e ≢ Unreadable)) }
{
    if let Format::Unknown = format {
        return Ok(None);
    }
    let opened = open(alloc, source)?;
    read_as(&opened, log, format)
}

// The identity of a file of this length.
fn read_as<S: Source>(
    opened: &Opened<'_, S>,
    log: &mut S::Log,
    format: Format,
) -> Result<Option<Identity>, ReadError>
    ensures { (file : List ℕ) → Known (S.bytes opened.now.source.now) opened.now.len file
        → Does (S.may_fail opened.now.source.now) (S.is_sure opened.now.source.now) (S.logs_only log.old)
        (S.logs_only log.new) file
        (identity_reading format) result }
{
    match format {
        Format::Elf32 { byte_order } => { read_elf(opened, log, Width::Bits32, byte_order) }
        Format::Elf64 { byte_order } => { read_elf(opened, log, Width::Bits64, byte_order) }
        Format::Macho => read_macho(opened, log),
        Format::PE => read_pe(opened, log),
        Format::Unknown => Ok(None),
    }
}
