//! The build ID of an ELF file (System V gABI, "Note Section").

ghost use Rattle.std.specs.Prelude.{◌≡◌, ◌+◌, ◌*◌, ◌<◌, ◌≤◌, List, ℕ, length, false, nat_eq, Some, None, if◌then◌else◌};
ghost use Rattle.std.specs.Option.{option_map};
ghost use Rattle.binfarce_bytes.specs.declared.ByteOrder.{ByteOrder};
ghost use Rattle.binfarce_bytes.specs.Field.{field, value_at};
ghost use Rattle.binfarce_tables.specs.Reading.{Known, Reads};
ghost use Rattle.binfarce_elf.specs.Classes.{class_of};
ghost use Rattle.binfarce_elf_memory.specs.ElfParts.{IsPlaceOf};
ghost use Rattle.binfarce_elf.specs.Elf.{header_of};
ghost use Rattle.binfarce_identity.specs.ElfIdentity.{as_identity, elf_reading, header_place, headers_reading, place_reading, table_of, table_reading};
ghost use Rattle.binfarce_identity.specs.Identity.{identity_view};
ghost use Rattle.binfarce_identity.specs.Notes.{build_id};
ghost use Rattle.binfarce_identity.specs.Reading.{Does};
ghost use Rattle.binfarce_identity.specs.machine.Views.{note_place_view, shape_of, table_view};

use crate::identity::{Identity, Kind};
use crate::notes::build_id;
use binfarce_bytes::ByteOrder;
use binfarce_bytes::parser::number_at;
use binfarce_bytes::source::Source;
use binfarce_elf_memory::parts::{HeaderTable, place_in};
use binfarce_elf_memory::segments::program_length;
use binfarce_tables::{Opened, ReadError, Width};
use std::alloc::Global;

// Headers of places in a file, of this class.
#[derive(Clone, Copy)]
pub(crate) enum Form {
    Sections(Width),
    Segments(Width),
}

// A table of such headers: where it begins, and how many it has.
#[derive(Clone, Copy)]
pub(crate) struct Table {
    form: Form,
    offset: u64,
    count: u16,
}

// Where notes are in the file, and their alignment.
#[derive(Clone, Copy)]
pub(crate) struct NotePlace {
    offset: u64,
    size: u64,
    align: u64,
}

// Reads the first build ID of a file of this class.
#[tactic(auto, unfolding(crate::specs::ElfIdentity::elf_reading))]
pub(crate) fn read_elf<S: Source>(
    opened: &Opened<'_, S>,
    log: &mut S::Log,
    width: Width,
    byte_order: ByteOrder,
) -> Result<Option<Identity>, ReadError>
    ensures { (file : List ℕ) → Known (S.bytes opened.now.source.now) opened.now.len file
        → Does (S.may_fail opened.now.source.now) (S.is_sure opened.now.source.now) (S.logs_only log.old)
        (S.logs_only log.new) file
        (elf_reading width byte_order) result }
{
    let head = opened.within(log, 0, width.header_length() as u64)?;
    let place = place_in(&head, width, byte_order)?;
    let table = table_of(width, place);
    read_table(opened, log, byte_order, table)
}

// The section headers of a file, or if it has none its program headers.
#[tactic(auto, unfolding(crate::specs::ElfIdentity::table_of))]
fn table_of(width: Width, place: HeaderTable) -> Table
    ensures { (order : ByteOrder) (head : List ℕ) → IsPlaceOf (class_of width) order head place
        → table_view result ≡ table_of width (header_of (class_of width) order head) }
{
    if place.shnum == 0 {
        Table {
            form: Form::Segments(width),
            offset: place.phoff,
            count: place.phnum,
        }
    } else {
        Table {
            form: Form::Sections(width),
            offset: place.shoff,
            count: place.shnum,
        }
    }
}

impl Form {
    // How many bytes a header has.
    fn length(self) -> usize
        ensures is { result ≡ (shape_of self).length }
        ensures some { (0 < result) × (result ≤ 64) }
    {
        match self {
            Form::Sections(width) => width.section_length(),
            Form::Segments(width) => program_length(width),
        }
    }
}

// Reads the first build ID at the places of a table's headers.
#[tactic(auto, unfolding(crate::specs::ElfIdentity::table_reading))]
fn read_table<S: Source>(
    opened: &Opened<'_, S>,
    log: &mut S::Log,
    byte_order: ByteOrder,
    table: Table,
) -> Result<Option<Identity>, ReadError>
    ensures { (file : List ℕ) → Known (S.bytes opened.now.source.now) opened.now.len file
        → Does (S.may_fail opened.now.source.now) (S.is_sure opened.now.source.now) (S.logs_only log.old)
        (S.logs_only log.new) file
        (table_reading byte_order (table_view table)) result }
{
    let size = u64::from(table.count) * table.form.length() as u64;
    let headers = opened.within(log, table.offset, size)?;
    read_headers(opened, log, byte_order, table, &headers)
}

// Reads the first build ID at the places of these headers.
fn read_headers<S: Source>(
    opened: &Opened<'_, S>,
    log: &mut S::Log,
    byte_order: ByteOrder,
    table: Table,
    headers: &[u8],
) -> Result<Option<Identity>, ReadError>
    requires { length headers.now ≡ table.count * (shape_of table.form).length }
    ensures { (file : List ℕ) → Known (S.bytes opened.now.source.now) opened.now.len file
        → Does (S.may_fail opened.now.source.now) (S.is_sure opened.now.source.now) (S.logs_only log.old)
        (S.logs_only log.new) file
        (headers_reading byte_order (shape_of table.form) headers.now table.count 0) result }
{
    let length = table.form.length();
    for index in 0..table.count {
        let place = place_at(headers, index as usize * length, table.form, byte_order);
        let found = read_place(opened, log, byte_order, place)?;
        if found.is_some() {
            return Ok(found);
        }
    }
    Ok(None)
}

// Reads the first build ID of the notes at a place, if there is one.
fn read_place<S: Source>(
    opened: &Opened<'_, S>,
    log: &mut S::Log,
    byte_order: ByteOrder,
    place: Option<NotePlace>,
) -> Result<Option<Identity>, ReadError>
    ensures { (file : List ℕ) → Known (S.bytes opened.now.source.now) opened.now.len file
        → Does (S.may_fail opened.now.source.now) (S.is_sure opened.now.source.now) (S.logs_only log.old)
        (S.logs_only log.new) file
        (place_reading byte_order (option_map note_place_view place)) result }
{
    let Some(place) = place else {
        return Ok(None);
    };
    let notes = opened.within(log, place.offset, place.size)?;
    identity_in(opened.alloc, &notes, byte_order, place.align)
}

// The first build ID among notes of this alignment.
fn identity_in(
    alloc: Global,
    notes: &[u8],
    byte_order: ByteOrder,
    align: u64,
) -> Result<Option<Identity>, ReadError>
    ensures { Reads false (option_map identity_view) (as_identity (build_id byte_order align notes.now)) result }
{
    let Some(id) = build_id(notes, byte_order, align)? else {
        return Ok(None);
    };
    let bytes = Vec::from_slice(alloc, id)?;
    Ok(Some(Identity {
        kind: Kind::BuildId,
        bytes,
    }))
}

// The place of the header that begins at `start`, if its type is that of notes.
#[tactic(auto, unfolding(binfarce_elf::specs::Elf::elf32, binfarce_elf::specs::Elf::elf64))]
fn place_at(headers: &[u8], start: usize, form: Form, byte_order: ByteOrder) -> Option<NotePlace>
    requires { start + (shape_of form).length ≤ length headers.now }
    ensures { option_map note_place_view result ≡ header_place byte_order (shape_of form) headers.now start }
{
    match form {
        Form::Sections(Width::Bits32) => narrow_at(headers, start, byte_order, 4, 7, 16, 20, 32),
        Form::Sections(Width::Bits64) => wide_at(headers, start, byte_order, 4, 7, 24, 32, 48),
        Form::Segments(Width::Bits32) => narrow_at(headers, start, byte_order, 0, 4, 4, 16, 28),
        Form::Segments(Width::Bits64) => wide_at(headers, start, byte_order, 0, 4, 8, 32, 48),
    }
}

// The same, by the offsets of the fields, of 4 bytes each, and the type.
fn narrow_at(
    headers: &[u8],
    start: usize,
    byte_order: ByteOrder,
    kind: usize,
    notes: u32,
    offset: usize,
    size: usize,
    align: usize,
) -> Option<NotePlace>
    requires { (start + kind + 4 ≤ length headers.now) × (start + offset + 4 ≤ length headers.now)
        × (start + size + 4 ≤ length headers.now) × (start + align + 4 ≤ length headers.now) }
    ensures { option_map note_place_view result
        ≡ (if nat_eq (value_at byte_order headers.now start (field kind 4)) notes then Some (record {
          offset = value_at byte_order headers.now start (field offset 4);
          size = value_at byte_order headers.now start (field size 4);
          align = value_at byte_order headers.now start (field align 4);
        }) else None) }
{
    let is: u32 = number_at(headers, start + kind, byte_order).unwrap();
    if is != notes {
        return None;
    }
    let offset: u32 = number_at(headers, start + offset, byte_order).unwrap();
    let size: u32 = number_at(headers, start + size, byte_order).unwrap();
    let align: u32 = number_at(headers, start + align, byte_order).unwrap();
    Some(NotePlace {
        offset: u64::from(offset),
        size: u64::from(size),
        align: u64::from(align),
    })
}

// The same, where places and alignments have 8 bytes.
fn wide_at(
    headers: &[u8],
    start: usize,
    byte_order: ByteOrder,
    kind: usize,
    notes: u32,
    offset: usize,
    size: usize,
    align: usize,
) -> Option<NotePlace>
    requires { (start + kind + 4 ≤ length headers.now) × (start + offset + 8 ≤ length headers.now)
        × (start + size + 8 ≤ length headers.now) × (start + align + 8 ≤ length headers.now) }
    ensures { option_map note_place_view result
        ≡ (if nat_eq (value_at byte_order headers.now start (field kind 4)) notes then Some (record {
          offset = value_at byte_order headers.now start (field offset 8);
          size = value_at byte_order headers.now start (field size 8);
          align = value_at byte_order headers.now start (field align 8);
        }) else None) }
{
    let is: u32 = number_at(headers, start + kind, byte_order).unwrap();
    if is != notes {
        return None;
    }
    Some(NotePlace {
        offset: number_at(headers, start + offset, byte_order).unwrap(),
        size: number_at(headers, start + size, byte_order).unwrap(),
        align: number_at(headers, start + align, byte_order).unwrap(),
    })
}
