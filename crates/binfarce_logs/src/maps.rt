//! Where files are loaded, by a text in the form of /proc/PID/maps.

ghost use Rattle.std.specs.Prelude.{◌≡◌, ◌≤◌, ◌+◌, drop, length, nat_eq, reverse, true};
ghost use Rattle.std.specs.List.{list_all, position_or_len};
ghost use Rattle.std.specs.Option.{option_map};
ghost use Rattle.binfarce_logs.specs.Maps.{agrees, are_permissions, base_at, base_by, base_by_page, base_of, base_without, before_blank, begins_alone, begun, begun_at, behind_blank, end_in, ends_with_path, first_start_of, if_agreed, is_permission, less_of, listed_in, lowest, mapped_in, mapping_at, mapping_for, mapping_of, mapping_with, name_of, other_than, path_of, placed, placed_in, same_as, unmapped, without_mark, without_return};
ghost use Rattle.binfarce_logs.specs.Pages.{largest_page};
ghost use Rattle.binfarce_logs.specs.machine.Wanted.{value_for};

use crate::faults::fault_in;
use crate::pages::{beginning, largest_page, only_beginning};
use binfarce_elf_memory::segments::{CodeSegment, LoadAddress};
use binfarce_rows::address::hex_number;

/// Why a text doesn't say where a file is loaded.
#[derive(Debug, Clone, Copy, PartialEq)]
pub enum NoBase {
    /// No line of it is a mapping.
    NotMaps,
    /// No line of it is a mapping of the file.
    NotMapped,
    /// The file has code, and no mapping says where this is: none has it, or the file's first byte; or it depends on the
    /// size of pages, which the maps don't say.
    NoCode,
    /// Its mappings have the code of the file, or its first byte, at several places: it is loaded several times, or
    /// several files are named alike.
    Several,
}

// What a line says of a mapping.
#[derive(Debug, Clone, Copy, PartialEq)]
pub(crate) struct Mapping {
    // Its first address.
    pub(crate) start: u64,
    // How many bytes it has.
    pub(crate) size: u64,
    // The offset of its first byte in the file, and whether that is known.
    pub(crate) offset: u64,
    pub(crate) has_offset: bool,
    // Whether it may be executed.
    pub(crate) is_code: bool,
}

// What is asked of each line: an address. A mapping is one of the file if its path ends with this one.
#[derive(Clone, Copy)]
enum Wanted<'a> {
    // Where a mapping begins, of any file.
    AnyStart,
    // Where a mapping of the file begins.
    Start(&'a [u8]),
    // Where a mapping of the file's first byte begins.
    FirstStart(&'a [u8]),
    // The same, if it is this one, and if it isn't.
    FirstAt(&'a [u8], u64),
    OtherFirst(&'a [u8], u64),
    // The offset in the file of a mapping of it that may be executed.
    CodeOffset(&'a [u8]),
    // Where the file is loaded by a mapping of its code.
    Base(&'a [u8], LoadAddress),
    // The same, if it isn't this one.
    OtherBase(&'a [u8], LoadAddress, u64),
}

/// Where a file is loaded that says that it is loaded there: where the mappings of its code have it; without such a
/// mapping where that of its first byte begins, or of a file without code the lowest of its mappings. A mapping is a
/// line as in `/proc/PID/maps`, or such words at its end: it begins at the first word from which the line has this form,
/// and words are behind blanks. So is what Linux says of a fault: `ip ADDRESS .. in NAME[PLACE,START+SIZE]`, with the
/// offset in the file of what is at the address. A mapping is one of the file if its path ends with the given one, after
/// a `/` if there is one, or is the same; if none is, if it ends so with the name behind the last `/` of the given
/// one. A ` (deleted)` after a path isn't part of it, nor is a carriage return. Nothing is allocated.
///
/// Pages may have 4, 16 or 64 KiB, if their size divides the alignment of the code. A debug file has no bytes of its
/// code: with the mapping of code at the lowest offset begins the page in which the code segment does, and that offset
/// says of which size it is; and if there are mappings of the file's first byte, one of them begins where the file is
/// loaded. Without an offset, as older kernels write of a fault, a mapping begins with the page in which the code
/// segment does, if pages of all sizes begin alike there. The first byte says where a file is loaded if no other segment
/// can be mapped with it: if the code is as long as the largest page.
///
/// # Errors
///
/// `NotMaps` if no line is a mapping; `NotMapped` if none is one of the file; `NoCode` if the file has code, and none
/// says where this is; `Several` if mappings have its code, or its first byte, at different places.
pub fn base_of(maps: &[u8], path: &[u8], loaded: LoadAddress) -> Result<u64, NoBase>
    ensures { result ≡ base_of maps.now path.now loaded }
{
    let end = end_in(maps, path);
    let base = base_at(maps, end, placed_in(maps, end, loaded));
    if_agreed(maps, end, loaded.code, base)
}

// That base, if it isn't one of a debug file with which mappings of its first byte don't agree.
fn if_agreed(
    maps: &[u8],
    end: &[u8],
    code: Option<CodeSegment>,
    base: Result<u64, NoBase>,
) -> Result<u64, NoBase>
    ensures { result ≡ if_agreed maps.now end.now code base }
{
    match (code, base) {
        (Some(code), Ok(base)) if code.size == 0 && !agrees(maps, end, base) => Err(NoBase::NoCode),
        _ => base,
    }
}

// Whether a mapping of the file's first byte begins there, or there is none.
fn agrees(maps: &[u8], end: &[u8], base: u64) -> bool
    ensures { result ≡ agrees maps.now end.now base }
{
    lowest(Wanted::FirstAt(end, base), maps).is_some()
        || lowest(Wanted::FirstStart(end), maps).is_none()
}

// Where a file is loaded whose mappings' paths have this end.
fn base_at(maps: &[u8], end: &[u8], loaded: LoadAddress) -> Result<u64, NoBase>
    ensures { result ≡ base_at maps.now end.now loaded }
{
    if let Some(base) = lowest(Wanted::Base(end, loaded), maps) {
        return match lowest(Wanted::OtherBase(end, loaded, base), maps) {
            Some(_) => Err(NoBase::Several),
            None => Ok(base),
        };
    }
    match lowest(Wanted::Start(end), maps) {
        Some(start) => match loaded.code {
            Some(code) => base_by_first(maps, end, loaded.address, code),
            None => Ok(start),
        },
        None => Err(unmapped(maps)),
    }
}

// Where the file is loaded by its first byte.
fn base_by_first(maps: &[u8], end: &[u8], address: u64, code: CodeSegment) -> Result<u64, NoBase>
    ensures { result ≡ base_without maps.now end.now address (Some code) }
{
    if !begins_alone(address, code) {
        return Err(NoBase::NoCode);
    }
    let first = lowest(Wanted::FirstStart(end), maps).ok_or(NoBase::NoCode)?;
    match lowest(Wanted::OtherFirst(end, first), maps) {
        Some(_) => Err(NoBase::Several),
        None => Ok(first),
    }
}

// Whether the file's first byte is mapped with its lowest segment alone.
fn begins_alone(address: u64, code: CodeSegment) -> bool
    ensures { result ≡ begins_alone (largest_page code.align) address code }
{
    let largest = largest_page(code.align);
    largest > 1 && address % largest == 0 && code.memory_size >= largest
}

// Why no mapping is one of the file.
fn unmapped(maps: &[u8]) -> NoBase
    ensures { result ≡ unmapped maps.now }
{
    if lowest(Wanted::AnyStart, maps).is_some() {
        NoBase::NotMapped
    } else {
        NoBase::NotMaps
    }
}

// Where the file says that it is loaded, the code of a debug file placed in the program's file.
fn placed_in(maps: &[u8], end: &[u8], loaded: LoadAddress) -> LoadAddress
    ensures { result ≡ placed_in maps.now end.now loaded }
{
    LoadAddress {
        address: loaded.address,
        code: match loaded.code {
            Some(code) => Some(placed(lowest(Wanted::CodeOffset(end), maps), code)),
            None => None,
        },
    }
}

// The code of a debug file, placed by the lowest offset of mappings that may be executed.
fn placed(lowest: Option<u64>, code: CodeSegment) -> CodeSegment
    ensures { result ≡ placed lowest code }
{
    let Some(offset) = lowest else {
        return code;
    };
    if code.size != 0 {
        return code;
    }
    match beginning(largest_page(code.align), offset, code.address) {
        Some(address) => CodeSegment {
            address,
            offset,
            size: u64::MAX,
            memory_size: code.memory_size,
            align: code.align,
        },
        None => code,
    }
}

// The name of the file at this path: what comes behind its last `/`.
pub(crate) fn name_of(path: &[u8]) -> &[u8]
    ensures { result.now ≡ name_of path.now }
{
    &path[path.len() - name_len(path)..]
}

// How many bytes come behind the last `/` of a path.
fn name_len(path: &[u8]) -> usize
    ensures within { result ≤ length path.now }
    ensures len { result ≡ position_or_len (nat_eq 47) (reverse path.now) }
{
    path.iter().rev().take_while(|b| **b != b'/').count()
}

// The end of the paths of the file's mappings.
fn end_in<'a>(maps: &[u8], path: &'a [u8]) -> &'a [u8]
    ensures { result.now ≡ end_in maps.now path.now }
{
    match lowest(Wanted::Start(path), maps) {
        Some(_) => path,
        None => name_of(path),
    }
}

// The lowest address of this kind.
fn lowest(wanted: Wanted<'_>, maps: &[u8]) -> Option<u64>
    ensures { result ≡ lowest (value_for wanted.entry) maps.now }
{
    let mut lowest = None;
    let mut rest = maps;
    while !rest.is_empty() {
        let len = len_before(b'\n', rest);
        lowest = less_of(lowest, value_for(wanted, &rest[..len]));
        rest = behind(len, rest);
    }
    lowest
}

// The part of a line that has the form of a mapping.
fn begun(line: &[u8]) -> &[u8]
    ensures { result.now ≡ begun line.now }
{
    begun_at(without_return(line))
}

// A text from the first word on from which it has the form of a mapping. Empty if there is none.
fn begun_at(text: &[u8]) -> &[u8]
    ensures { result.now ≡ begun_at true text.now }
{
    let mut may_begin = true;
    for at in 0..text.len() {
        if may_begin && mapping_of(&text[at..]).is_some() {
            return &text[at..];
        }
        may_begin = text[at] == b' ';
    }
    &[]
}

// A line without the carriage return at its end.
fn without_return(line: &[u8]) -> &[u8]
    ensures { result.now ≡ without_return line.now }
{
    if line.ends_with(b"\r") {
        &line[..line.len() - 1]
    } else {
        line
    }
}

// The address of this kind that a line has.
fn value_for(wanted: Wanted<'_>, line: &[u8]) -> Option<u64>
    ensures { result ≡ value_for wanted.entry line.now }
{
    match wanted {
        Wanted::AnyStart => Some(mapped_in(line)?.0.start),
        Wanted::Start(end) => Some(mapping_for(end, line)?.start),
        Wanted::FirstStart(end) => first_start_of(mapping_for(end, line)),
        Wanted::FirstAt(end, one) => same_as(one, first_start_of(mapping_for(end, line))),
        Wanted::OtherFirst(end, one) => other_than(one, first_start_of(mapping_for(end, line))),
        Wanted::CodeOffset(end) => match mapping_for(end, line) {
            Some(mapping) if mapping.is_code && mapping.has_offset => Some(mapping.offset),
            _ => None,
        },
        Wanted::Base(end, loaded) => base_by(loaded, mapping_for(end, line)),
        Wanted::OtherBase(end, loaded, base) => {
            other_than(base, base_by(loaded, mapping_for(end, line)))
        }
    }
}

// The first address of a mapping of the file's first byte.
fn first_start_of(mapping: Option<Mapping>) -> Option<u64>
    ensures { result ≡ first_start_of mapping }
{
    match mapping {
        Some(mapping) if mapping.has_offset && mapping.offset == 0 => Some(mapping.start),
        _ => None,
    }
}

// An address that is this one.
fn same_as(one: u64, base: Option<u64>) -> Option<u64>
    ensures { result ≡ same_as one base }
{
    match base {
        Some(other) if other == one => Some(other),
        _ => None,
    }
}

// An address that isn't this one.
fn other_than(one: u64, base: Option<u64>) -> Option<u64>
    ensures { result ≡ other_than one base }
{
    match base {
        Some(other) if other != one => Some(other),
        _ => None,
    }
}

// Where the file is loaded by a mapping, if that is one of its code.
fn base_by(loaded: LoadAddress, mapping: Option<Mapping>) -> Option<u64>
    ensures { result ≡ base_by loaded mapping }
{
    let mapping = mapping?;
    let code = loaded.code?;
    if !mapping.has_offset {
        return base_by_page(loaded.address, code, mapping);
    }
    let ends_before = code.offset.saturating_sub(mapping.offset) >= mapping.size;
    let begins_behind = mapping.offset.saturating_sub(code.offset) >= code.size;
    if !mapping.is_code || begins_behind || ends_before {
        return None;
    }
    let in_memory = mapping.start.wrapping_sub(mapping.offset);
    let in_file = code.address.wrapping_sub(code.offset);
    Some(in_memory.wrapping_sub(in_file).wrapping_add(loaded.address))
}

// Where the file is loaded by a mapping of its code whose offset isn't known.
fn base_by_page(address: u64, code: CodeSegment, mapping: Mapping) -> Option<u64>
    ensures { result ≡ base_by_page address code mapping }
{
    let beginning = only_beginning(largest_page(code.align), code.address)?;
    let in_memory = mapping.start.wrapping_sub(beginning);
    Some(in_memory.wrapping_add(address))
}

// The mapping of a line, where its path ends with this one.
fn mapping_for(end: &[u8], line: &[u8]) -> Option<Mapping>
    ensures { result ≡ mapping_for end.now line.now }
{
    let (mapping, path) = mapped_in(line)?;
    if ends_with_path(end, path) {
        Some(mapping)
    } else {
        None
    }
}

// What a line says: a mapping and the path of its file, also within other words, or those of a fault.
fn mapped_in(line: &[u8]) -> Option<(Mapping, &[u8])>
    ensures { option_map (λ m. (m.0, m.1.now)) result ≡ mapped_in line.now }
{
    match listed_in(begun(line)) {
        Some(mapped) => Some(mapped),
        None => fault_in(without_return(line)),
    }
}

// What a text in the form of a mapping says.
fn listed_in(text: &[u8]) -> Option<(Mapping, &[u8])>
    ensures { option_map (λ m. (m.0, m.1.now)) result ≡ listed_in text.now }
{
    let mapping = mapping_of(text)?;
    Some((mapping, path_of(text)))
}

fn mapping_of(line: &[u8]) -> Option<Mapping>
    ensures { result ≡ mapping_of line.now }
{
    // No number begins with another byte, so no field is looked for.
    if line.is_empty() || !line[0].is_ascii_hexdigit() {
        return None;
    }
    let len = len_before(b' ', line);
    mapping_with(&line[..len], behind(len, line))
}

// The mapping with this range, before its permissions and its offset. These aren't looked for before there is a range.
fn mapping_with(range: &[u8], others: &[u8]) -> Option<Mapping>
    ensures { result ≡ mapping_with range.now (before_blank others.now) (before_blank (behind_blank others.now)) }
{
    let len = len_before(b'-', range);
    let start = hex_number(&range[..len])?;
    let end = hex_number(behind(len, range))?;
    let place = hex_number(before_blank(behind_blank(others)))?;
    mapping_at(before_blank(others), start, end, place)
}

// The mapping with these permissions, range and offset in the file, if they are permissions.
fn mapping_at(permissions: &[u8], start: u64, end: u64, place: u64) -> Option<Mapping>
    ensures { result ≡ mapping_at permissions.now start end place }
{
    if !are_permissions(permissions) {
        return None;
    }
    Some(Mapping {
        start,
        size: end.saturating_sub(start),
        offset: place,
        has_offset: true,
        is_code: permissions.contains(&b'x'),
    })
}

// Whether a field is four letters of permissions, or `-` in place of one.
fn are_permissions(field: &[u8]) -> bool
    ensures { result ≡ are_permissions field.now }
{
    field.len() == 4 && are_letters(field)
}

fn are_letters(field: &[u8]) -> bool
    ensures { result ≡ list_all is_permission field.now }
{
    field
        .iter()
        .all(|b| matches!(*b, b'r' | b'w' | b'x' | b's' | b'p' | b'-'))
}

// The path of a mapping.
fn path_of(line: &[u8]) -> &[u8]
    ensures { result.now ≡ path_of line.now }
{
    let inode = behind_blank(behind_blank(behind_blank(behind_blank(line))));
    without_mark(behind_blank(inode).trim_ascii_start())
}

// A path without the mark of a file that was deleted.
fn without_mark(path: &[u8]) -> &[u8]
    ensures { result.now ≡ without_mark path.now }
{
    if path.ends_with(b" (deleted)") {
        &path[..path.len() - 10]
    } else {
        path
    }
}

// Whether a path ends with this one.
fn ends_with_path(end: &[u8], path: &[u8]) -> bool
    ensures { result ≡ ends_with_path end.now path.now }
{
    path.ends_with(end)
        && (path.len() == end.len() || path[..path.len() - end.len()].ends_with(b"/"))
}

// The text before its first blank.
pub(crate) fn before_blank(text: &[u8]) -> &[u8]
    ensures { result.now ≡ before_blank text.now }
{
    &text[..len_before(b' ', text)]
}

// The text behind its first blank.
fn behind_blank(text: &[u8]) -> &[u8]
    ensures { result.now ≡ behind_blank text.now }
{
    behind(len_before(b' ', text), text)
}

// How many bytes come before the first one of this value.
pub(crate) fn len_before(byte: u8, text: &[u8]) -> usize
    ensures within { result ≤ length text.now }
    ensures len { result ≡ position_or_len (nat_eq byte) text.now }
{
    text.iter().take_while(|b| **b != byte).count()
}

// The text behind the byte at this place.
pub(crate) fn behind(place: usize, text: &[u8]) -> &[u8]
    ensures { result.now ≡ drop (place + 1) text.now }
{
    if place < text.len() {
        &text[place + 1..]
    } else {
        &[]
    }
}

// The less of two addresses, of which there may be none.
fn less_of(one: Option<u64>, other: Option<u64>) -> Option<u64>
    ensures { result ≡ less_of one other }
{
    match (one, other) {
        (Some(a), Some(b)) => Some(a.min(b)),
        (Some(a), None) => Some(a),
        (None, other) => other,
    }
}
