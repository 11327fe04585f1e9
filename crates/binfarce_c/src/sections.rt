//! The sections of a file of any format: all of them in a caller's array, and the bytes of one.

ghost use Rattle.std.specs.Prelude.{◌≡◌, None, length};
ghost use Rattle.binfarce.specs.Format.{format_of};
ghost use Rattle.binfarce_foreign.specs.Foreign.{foreign_in};
ghost use Rattle.binfarce_sections.specs.Named.{bytes_named};
ghost use Rattle.binfarce_sections.specs.Section.{sections_of};
ghost use Rattle.binfarce_sections.specs.Views.{section_view, sections_left};
ghost use Rattle.binfarce_c.specs.Buffer.{PointsTo};
ghost use Rattle.binfarce_c.specs.Sections.{GivesBytes, GivesSections, GivesWalk, HoldsBytes, IsSection};
ghost use Rattle.binfarce_c.specs.machine.Filled.{OneMore};
ghost use Rattle.binfarce_c.specs.machine.SectionErrors.{Hands, Maps, error_status, seen};

use crate::functions::start;
use crate::status::{
    NO_BYTES, NONE, NOT_UTF8, OK, PAST_END, UNKNOWN_FORMAT, foreign_in, foreign_status, number_of,
    status_of,
};
use binfarce_sections::bytes::section_bytes;
use binfarce_sections::error::SectionError;
use binfarce_sections::sections::{self, sections_of};
use std::{ptr, str};

/// A section of a file: `struct binfarce_section`.
#[repr(C)]
#[derive(Clone, Copy)]
pub struct Section {
    /// The first byte of the name, in the file; null if there is none, or an empty one.
    pub name: *const u8,
    /// The length of the name in bytes.
    pub name_length: usize,
    /// In a Mach-O file the first byte of the segment's name; null in the other formats.
    pub segment: *const u8,
    /// The length of the segment's name in bytes.
    pub segment_length: usize,
    /// The address of its first byte in memory.
    pub address: u64,
    /// Where its bytes begin in the file, as the file states it.
    pub offset: u64,
    /// Its size in bytes.
    pub size: u64,
    /// How many bytes it has in the file.
    pub file_size: u64,
    /// How many bytes it has in memory.
    pub memory_size: u64,
    /// Its flags.
    pub flags: u64,
    /// In ELF and Mach-O the number of its type, and in PE 0.
    pub kind: u32,
    /// 1 if it has a name, which may be empty, and 0 for an ELF section that has none.
    pub has_name: u32,
    /// 1 if it has bytes in the file, and else 0.
    pub has_bytes: u32,
}

/// What a call that gives sections returns: `struct binfarce_sections`.
#[repr(C)]
#[derive(Drop)]
pub struct Sections {
    /// `BINFARCE_OK`, or the refusal of the next section.
    pub status: u32,
    /// How many sections there are, however many of them the array had room for.
    pub count: usize,
}

/// Bytes of a file: `struct binfarce_bytes`.
#[repr(C)]
#[derive(Clone, Copy)]
pub struct Bytes {
    /// The first of them, in the file; null if there is none.
    pub start: *const u8,
    /// How many there are.
    pub length: usize,
}

/// All sections of a file. See `binfarce.h`.
#[unsafe(no_mangle)]
pub extern "C" fn binfarce_sections(file: &[u8], out: &mut [Section]) -> Sections
    ensures { GivesSections (foreign_in file.now) (sections_of (format_of file.now) file.now) out.old out.new result }
{
    match foreign_in(file) {
        None => of_known(file, out),
        Some(foreign) => ended(foreign_status(foreign), 0),
    }
}

// Those of a file that isn't foreign.
#[tactic(auto, using(crate::proofs::Filled::opened, crate::proofs::Filled::refused))]
fn of_known(file: &[u8], out: &mut [Section]) -> Sections
    ensures { GivesSections None (sections_of (format_of file.now) file.now) out.old out.new result }
{
    match sections_of(file) {
        Ok(sections) => fill(sections, out),
        Err(e) => ended(reason_of(e), 0),
    }
}

/// The bytes of the first section of this name. See `binfarce.h`.
#[unsafe(no_mangle)]
#[tactic(auto, using(crate::proofs::SectionBytes::bytes_given))]
pub extern "C" fn binfarce_section_bytes(file: &[u8], name: &[u8], out: &mut Bytes) -> u32
    ensures { GivesBytes name.now (foreign_in file.now)
        (bytes_named (sections_of (format_of file.now) file.now) file.now name.now) out.new result }
{
    give(bytes_or_status(file, name), out)
}

// The bytes, or the status.
#[tactic(auto, using(crate::proofs::SectionBytes::handed_on))]
fn bytes_or_status<'a>(file: &'a [u8], name: &[u8]) -> Result<&'a [u8], u32>
    ensures { Hands name.now (foreign_in file.entry.now)
        (bytes_named (sections_of (format_of file.entry.now) file.entry.now) file.entry.now name.now) result }
{
    let Ok(name) = str::from_utf8(name) else {
        return Err(NOT_UTF8);
    };
    match foreign_in(file) {
        None => handed(section_bytes(file, name)),
        Some(foreign) => Err(foreign_status(foreign)),
    }
}

// The bytes that were given, or the number of the reason why there are none.
fn handed(given: Result<&[u8], SectionError>) -> Result<&[u8], u32>
    ensures { Maps given.entry result }
{
    match given {
        Ok(bytes) => Ok(bytes),
        Err(e) => Err(reason_of(e)),
    }
}

// The bytes in a caller's struct, and the status.
fn give(found: Result<&[u8], u32>, out: &mut Bytes) -> u32
    ensures { HoldsBytes (seen found.entry) out.new result }
{
    match found {
        Ok(bytes) => {
            *out = bytes_at(bytes);
            OK
        }
        Err(status) => {
            *out = Bytes {
                start: ptr::null(),
                length: 0,
            };
            status
        }
    }
}

fn bytes_at(bytes: &[u8]) -> Bytes
    ensures start { PointsTo bytes.now result.start }
    ensures length { result.length ≡ length bytes.now }
{
    Bytes {
        start: start(bytes),
        length: bytes.len(),
    }
}

// The number of an error. The last three are errors of other calls.
fn reason_of(error: SectionError) -> u32
    ensures { result ≡ error_status error }
{
    match error {
        SectionError::Unknown => UNKNOWN_FORMAT,
        SectionError::Parse(e) => status_of(e),
        SectionError::NoSection => NONE,
        SectionError::NoBytes => NO_BYTES,
        SectionError::PastEnd => PAST_END,
        SectionError::OutOfMemory | SectionError::Write | SectionError::Unreadable => NONE,
    }
}

// Puts all sections that come into the array, up to a refusal.
fn fill(sections: sections::Sections<'_>, out: &mut [Section]) -> Sections
    ensures { GivesWalk (sections_left sections.entry) out.old out.new result }
{
    let mut count = 0;
    for section in sections {
        match section {
            Ok(section) => count = place(shown(section), count, out),
            Err(e) => return ended(status_of(e), count),
        }
    }
    Sections { status: OK, count }
}

fn ended(status: u32, count: usize) -> Sections
    ensures { result ≡ record { status = status; count = count } }
{
    Sections { status, count }
}

// Puts a section into the array after those before it, if there is room. Returns how many came so far.
fn place(section: Section, count: usize, out: &mut [Section]) -> usize
    ensures { OneMore section count out.old out.new result }
{
    let room = out.len();
    if count < room {
        out[count] = section;
    }
    count.saturating_add(1)
}

fn shown(section: sections::Section<'_>) -> Section
    ensures { IsSection (section_view section.entry) result }
{
    let name = section.name.unwrap_or("");
    let segment = section.segment.unwrap_or("");
    Section {
        name: start(name.as_bytes()),
        name_length: name.len(),
        segment: start(segment.as_bytes()),
        segment_length: segment.len(),
        address: section.address,
        offset: section.offset,
        size: section.size,
        file_size: section.file_size,
        memory_size: section.memory_size,
        flags: section.flags,
        kind: section.kind.number().unwrap_or(0),
        has_name: number_of(section.name.is_some()),
        has_bytes: number_of(section.has_bytes),
    }
}
