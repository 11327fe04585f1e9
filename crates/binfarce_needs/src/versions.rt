//! The versions that a file needs from others (LSB Core Generic, "Version Requirements").

ghost use Rattle.std.specs.Prelude.{◌≡◌, ◌≤◌, ◌++◌, List, [], length, take, IfOk, IfSome};
ghost use Rattle.std.specs.Option.{option_map};
ghost use Rattle.binfarce_needs.specs.NeededVersions.{Version, file_at, needed_versions, version_at, versions_from};
ghost use Rattle.binfarce_needs.specs.machine.Views.{Found, file_view, version_view};

use binfarce_bytes::ByteOrder;
use binfarce_bytes::parser::{number_at, slice_at, to_index};
use binfarce_elf::class::{Half, Word};
use binfarce_elf_memory::versions::define;
use std::alloc::{AllocError, Global};
use std::collections::BTreeMap;

// How many bytes an entry has, for a file or for a version.
const ENTRY_LENGTH: usize = 16;

// The offsets of the names of needed versions, and of the names of their files, by the versions' indices.
#[derive(Drop)]
pub(crate) struct Offsets {
    pub names: BTreeMap<Half, Word>,
    pub files: BTreeMap<Half, Word>,
}

// What an entry for a file says: how many versions are needed from it, the offset of its name, and how far after its
// beginning the first version's entry and the next file's begin.
#[derive(Clone, Copy)]
struct FileEntry {
    count: Half,
    name: Word,
    versions: Word,
    next: Word,
}

// What an entry for a version says: its index, the offset of its name, and how far after its beginning the next begins.
#[derive(Clone, Copy)]
struct VersionEntry {
    index: Half,
    name: Word,
    next: Word,
}

// The offsets of the versions of a section, no more than it has room for. The only error is a failed allocation.
pub(crate) fn needed_versions(
    alloc: Global,
    section: &[u8],
    byte_order: ByteOrder,
) -> Result<Offsets, AllocError>
    ensures { IfOk result (λ offsets. Found offsets [] (needed_versions byte_order section.now)) }
{
    let mut offsets = Offsets {
        names: BTreeMap::new(alloc),
        files: BTreeMap::new(alloc),
    };
    let mut room = section.len() / ENTRY_LENGTH;
    let mut start: u64 = 0;
    for _passed in 0..section.len() {
        let Some(file) = file_at(section, start, byte_order) else {
            return Ok(offsets);
        };
        let first = start + u64::from(file.versions);
        room = push_versions(&mut offsets, section, byte_order, file, first, room)?;
        if file.next == 0 {
            return Ok(offsets);
        }
        start += u64::from(file.next);
    }
    Ok(offsets)
}

// Sets the offsets of the versions of a file, the first of which begins at `start`, and returns how many versions there
// is room for after them.
fn push_versions(
    offsets: &mut Offsets,
    section: &[u8],
    byte_order: ByteOrder,
    file: FileEntry,
    start: u64,
    room: usize,
) -> Result<usize, AllocError>
    ensures { IfOk result (λ left. (others all : List Version)
        → Found offsets.old (take room (versions_from byte_order section.now file.name file.count start ++ others)) all
        → Found offsets.new (take left others) all) }
{
    let mut left = room;
    let mut at = start;
    for _passed in 0..file.count {
        let Some(version) = version_at(section, at, byte_order) else {
            return Ok(left);
        };
        if left == 0 {
            return Ok(0);
        }
        define(&mut offsets.names, version.index, version.name)?;
        define(&mut offsets.files, version.index, file.name)?;
        left -= 1;
        if version.next == 0 {
            return Ok(left);
        }
        at += u64::from(version.next);
    }
    Ok(left)
}

// The entry for a file that begins at `start`, if it is whole.
#[tactic(auto, unfolding(crate::specs::NeededVersions::file_at))]
fn file_at(bytes: &[u8], start: u64, byte_order: ByteOrder) -> Option<FileEntry>
    ensures is { option_map file_view result ≡ file_at byte_order bytes.now start }
    ensures inside { IfSome result (λ _. start ≤ length bytes.now) }
{
    let place = to_index(start);
    slice_at(bytes, place, ENTRY_LENGTH).ok()?;
    Some(FileEntry {
        count: number_at(bytes, place + 2, byte_order).unwrap(),
        name: number_at(bytes, place + 4, byte_order).unwrap(),
        versions: number_at(bytes, place + 8, byte_order).unwrap(),
        next: number_at(bytes, place + 12, byte_order).unwrap(),
    })
}

// The entry for a version that begins at `start`, if it is whole.
#[tactic(auto, unfolding(crate::specs::NeededVersions::version_at))]
fn version_at(bytes: &[u8], start: u64, byte_order: ByteOrder) -> Option<VersionEntry>
    ensures is { option_map version_view result ≡ version_at byte_order bytes.now start }
    ensures inside { IfSome result (λ _. start ≤ length bytes.now) }
{
    let place = to_index(start);
    slice_at(bytes, place, ENTRY_LENGTH).ok()?;
    Some(VersionEntry {
        index: number_at(bytes, place + 6, byte_order).unwrap(),
        name: number_at(bytes, place + 8, byte_order).unwrap(),
        next: number_at(bytes, place + 12, byte_order).unwrap(),
    })
}
