//! The UUID of a Mach-O file (Apple's `<mach-o/loader.h>`, `uuid_command`).

ghost use Rattle.std.specs.Prelude.{◌≡◌, ◌+◌, ◌≤◌, List, ℕ, Some, false, length};
ghost use Rattle.std.specs.Option.{option_map};
ghost use Rattle.binfarce_bytes.specs.Refusal.{Gives, refusal_of};
ghost use Rattle.binfarce_tables.specs.Reading.{Known, Reads};
ghost use Rattle.binfarce_macho.specs.Macho.{command_at, header_of};
ghost use Rattle.binfarce_identity.specs.Identity.{identity, identity_view};
ghost use Rattle.binfarce_identity.specs.MachoIdentity.{macho_reading, uuid_in, uuid_of};
ghost use Rattle.binfarce_identity.specs.Reading.{Does};
ghost use Rattle.binfarce_identity.specs.declared.identity.Kind.TheVariants.{Uuid};

use crate::identity::{Identity, Kind};
use binfarce_bytes::parser::{number_at, slice_at, to_index};
use binfarce_bytes::source::Source;
use binfarce_bytes::{ByteOrder, ParseError};
use binfarce_tables::{Opened, ReadError};
use std::alloc::Global;

// How many bytes of the header are read, and how many it has.
const HEADER_READ: u64 = 28;

const HEADER_LENGTH: usize = 32;

// How many bytes a load command has before its body.
const COMMAND_HEAD: u32 = 8;

const LC_UUID: u32 = 0x1b;

// How many bytes the command of the UUID has, and how many the UUID.
const UUID_COMMAND: u32 = 24;

const UUID_LENGTH: usize = 16;

// Reads the UUID of a file.
#[tactic(auto, unfolding(crate::specs::MachoIdentity::macho_reading))]
pub(crate) fn read_macho<S: Source>(
    opened: &Opened<'_, S>,
    log: &mut S::Log,
) -> Result<Option<Identity>, ReadError>
    ensures { (file : List ℕ) → Known (S.bytes opened.now.source.now) opened.now.len file
        → Does (S.may_fail opened.now.source.now) (S.is_sure opened.now.source.now) (S.logs_only log.old)
        (S.logs_only log.new) file
        macho_reading result }
{
    let head = opened.within(log, 0, HEADER_READ)?;
    let size: u32 = number_at(&head, 20, ByteOrder::LittleEndian).unwrap();
    let end = HEADER_LENGTH as u64 + u64::from(size);
    let bytes = opened.within(log, 0, end)?;
    identity_in(opened.alloc, &bytes)
}

// The UUID in these first bytes of a file, up to the end of its load commands.
#[tactic(auto, unfolding(binfarce_macho::specs::Macho::header_of, binfarce_macho::specs::Macho::header_fields))]
fn identity_in(alloc: Global, bytes: &[u8]) -> Result<Option<Identity>, ReadError>
    requires { 28 ≤ length bytes.now }
    ensures { Reads false (option_map identity_view) (uuid_of bytes.now) result }
{
    let count: u32 = number_at(bytes, 16, ByteOrder::LittleEndian).unwrap();
    let Some(uuid) = uuid_of(bytes, count)? else {
        return Ok(None);
    };
    let bytes = Vec::from_slice(alloc, uuid)?;
    Ok(Some(Identity {
        kind: Kind::Uuid,
        bytes,
    }))
}

// The UUID in the first so many load commands of these bytes.
#[tactic(auto, unfolding(crate::specs::MachoIdentity::uuid_of))]
fn uuid_of(bytes: &[u8], count: u32) -> Result<Option<&[u8]>, ParseError>
    requires { count ≡ (header_of bytes.now).ncmds }
    ensures { Gives refusal_of (option_map (λ b. identity Uuid b.now)) (uuid_of bytes.now) result }
{
    let mut offset = HEADER_LENGTH;
    for _k in 0..count {
        let Ok(kind) = number_at::<u32>(bytes, offset, ByteOrder::LittleEndian) else {
            return Ok(None);
        };
        let Ok(size) = number_at::<u32>(bytes, offset + 4, ByteOrder::LittleEndian) else {
            return Ok(None);
        };
        if size < COMMAND_HEAD {
            return Err(ParseError::MalformedInput);
        }
        if kind == LC_UUID {
            return uuid_at(bytes, offset, size);
        }
        offset = to_index(offset as u64 + size as u64);
    }
    Ok(None)
}

// The UUID in the command that begins here and has this size.
fn uuid_at(bytes: &[u8], offset: usize, size: u32) -> Result<Option<&[u8]>, ParseError>
    requires head { offset + 8 ≤ length bytes.now }
    requires size { size ≡ (command_at bytes.now offset).size }
    ensures { Gives refusal_of (option_map (λ b. identity Uuid b.now))
        (uuid_in bytes.now (Some (command_at bytes.now offset))) result }
{
    if size != UUID_COMMAND {
        return Err(ParseError::MalformedInput);
    }
    Ok(Some(slice_at(bytes, offset + 8, UUID_LENGTH)?))
}
