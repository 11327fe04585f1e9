//! The sections of a file (`section_64` of Apple's `<mach-o/loader.h>`).

ghost use Rattle.std.specs.Prelude.{◌≡◌, ◌+◌, ◌<◌, ◌≤◌, ◌^◌, length, All, Some, None, MatchOption, MatchResult, OnSome};
ghost use Rattle.std.specs.Option.{option_map};
ghost use Rattle.binfarce_bytes.specs.Refusal.{Gives, refusal_of, malformed_input, unexpected_eof};
ghost use Rattle.binfarce_bytes.specs.Text.{padded_name};
ghost use Rattle.binfarce_bytes.specs.Walk.{MayBeAsked, FirstAccepted, YieldsNext, first, ended, ahead_of};
ghost use Rattle.binfarce_macho.specs.Macho.{header_of, walk, segment, section_at, flags_at, section_data, is_named};
ghost use Rattle.binfarce_macho.specs.MachoViews.{header_view, section_view};
ghost use Rattle.binfarce_macho.specs.machine.RawMacho.{damage_refusal, commands_left, section_count, segment_from, sections_left, IsWithin, StepsSegment};

use crate::commands::{Command, Damage, LC_SEGMENT_64, MachoCommandsIterator, commands};
use crate::header::MachoHeader;
use binfarce_bytes::parser::{
    Stream, UnexpectedEof, number_at, range, slice_at, to_index, up_to_nul, utf8_text,
};
use binfarce_bytes::{ByteOrder, ParseError};
use std::marker::Model;
use std::ops::Range;

pub(crate) const SECTION_LENGTH: usize = 80;

/// A section (`section_64`): its names, its address, the offset and size of its bytes, and its flags. The names are
/// slices of the file.
#[derive(Debug, Clone, Copy)]
pub struct Section<'a> {
    pub(crate) segment_name: &'a str,
    pub(crate) section_name: &'a str,
    pub(crate) address: u64,
    pub(crate) offset: u32,
    pub(crate) size: u64,
    pub(crate) flags: u32,
}

impl Section<'_> {
    /// The section's bytes as a range of the file (`offset`, `size`). It isn't checked against the file's length.
    ///
    /// # Errors
    ///
    /// `MalformedInput` if the range's end exceeds `usize`.
    pub fn range(&self) -> Result<Range<usize>, ParseError>
        ensures { let s = section_view self.now in MatchResult result
            (λ r. (r.start ≡ s.offset) × (r.end ≡ s.offset + s.size))
            (λ e. (2 ^ 64 ≤ s.offset + s.size) × (refusal_of e ≡ malformed_input)) }
    {
        range(self.offset as u64, self.size)
    }
}

/// The section's bytes, a slice of the file. `MalformedInput` if their end exceeds 64 bits, `UnexpectedEof` if
/// it lies past the file.
#[tactic(auto, unfolding(binfarce_bytes::specs::Refusal::bytes_in_file))]
pub fn section_data<'a>(file: &'a [u8], section: &Section<'_>) -> Result<&'a [u8], ParseError>
    ensures { Gives refusal_of (λ b. b.now) (section_data file.now (section_view section.now)) result }
{
    let (offset, size) = (section.offset as u64, section.size);
    offset.checked_add(size).ok_or(ParseError::MalformedInput)?;
    Ok(slice_at(file, to_index(offset), to_index(size))?)
}

/// An iterator over the sections of a file, in file order: the result of `sections` of a reader. It borrows the file's
/// bytes.
///
/// A section is read on demand. An error is given for a segment command or a section that is truncated
/// (`UnexpectedEof`), and for a load command whose size is below 8 (`MalformedInput`); nothing follows it.
#[must_use = "iterators are lazy and do nothing unless consumed"]
#[derive(Clone, Drop)]
pub struct Sections<'a> {
    left: Left<'a>,
}

// The load commands after a segment command, and the rest of that segment.
#[derive(Clone, Drop)]
struct Left<'a> {
    commands: MachoCommandsIterator<'a>,
    segment: Segment,
}

// A segment command: where its body begins, how many sections it has, and the index of the next.
#[derive(Clone, Copy)]
struct Segment {
    body: usize,
    count: u32,
    next: u32,
}

const NO_SEGMENT: Segment = Segment {
    body: 0,
    count: 0,
    next: 0,
};

impl<'a> Model for Sections<'a> {
    ghost use Rattle.binfarce_bytes.specs.Walk.{Walk};
    ghost use Rattle.binfarce_macho.specs.Macho.{Section};
    ghost use Rattle.binfarce_macho.specs.machine.RawMacho.{sections_left, IsWithin};

    ghost Value = { Walk Section };

    ghost view = { λ s. sections_left s.left };

    ghost invariant = { λ s. IsWithin s.left };
}

/// All sections of a file with this header.
pub fn sections_of(file: &[u8], header: MachoHeader) -> Sections<'_>
    requires { header_view header ≡ header_of file.now }
    ensures { result ≡ walk file.now }
{
    Sections {
        left: all_left(file, header),
    }
}

// All sections of a file with this header, before the first.
fn all_left(file: &[u8], header: MachoHeader) -> Left<'_>
    requires { header_view header ≡ header_of file.now }
    ensures within { IsWithin result }
    ensures all { sections_left result ≡ walk file.now }
{
    Left {
        commands: commands(file, header),
        segment: NO_SEGMENT,
    }
}

impl<'a> Iterator for Sections<'a> {
    ghost use Rattle.binfarce_bytes.specs.Refusal.{refusal_of};
    ghost use Rattle.binfarce_bytes.specs.Walk.{YieldsNext, walk_count};
    ghost use Rattle.binfarce_macho.specs.MachoViews.{section_view};

    type Item = Result<Section<'a>, ParseError>;

    ghost next_gives = { YieldsNext refusal_of section_view };

    ghost remaining = { walk_count };

    fn next(&mut self) -> Option<Result<Section<'a>, ParseError>> {
        match next_section(&mut self.left) {
            None => None,
            Some(Err(damage)) => Some(Err(ParseError::from(damage))),
            Some(Ok(section)) => Some(Ok(section)),
        }
    }
}

// The first section that is left: of the segment, or of one after it.
fn next_section<'a>(left: &mut Left<'a>) -> Option<Result<Section<'a>, Damage>>
    requires { IsWithin left.old }
    ensures within { IsWithin left.new }
    ensures steps { YieldsNext damage_refusal section_view (sections_left left.old) result (sections_left left.new) }
{
    loop {
        match section_left(left.commands.bytes, left.segment) {
            Err(_) => {
                left.commands.left = 0;
                left.segment = NO_SEGMENT;
                return Some(Err(Damage::Truncated));
            }
            Ok(Some((section, next))) => {
                left.segment.next = next;
                return Some(Ok(section));
            }
            Ok(None) => {}
        }
        match next_segment(&mut left.commands) {
            None => return None,
            Some(Err(damage)) => {
                left.commands.left = 0;
                left.segment = NO_SEGMENT;
                return Some(Err(damage));
            }
            Some(Ok(segment)) => left.segment = segment,
        }
    }
}

// The first section that the segment has left, and the index after it; `None` if there are no more.
fn section_left(bytes: &[u8], segment: Segment) -> Result<Option<(Section<'_>, u32)>, UnexpectedEof>
    requires inside { segment.body ≤ length bytes.now }
    requires within { segment.next ≤ section_count bytes.now segment }
    ensures { let left = segment_from bytes.entry.now segment in MatchResult result
        (λ found. MatchOption found (left ≡ ended None)
        (λ f. (f.1 ≤ section_count bytes.entry.now segment)
        × (left ≡ ahead_of (section_view f.0) (segment_from bytes.entry.now (record segment { next = f.1 })))))
        (λ _. left ≡ ended (Some unexpected_eof)) }
{
    for index in segment.next..segment.count {
        let start = segment.body + 64 + index as usize * SECTION_LENGTH;
        match section_at(bytes, start) {
            Err(e) => return Err(e),
            Ok(None) => {}
            Ok(Some(section)) => return Ok(Some((section, index + 1))),
        }
    }
    Ok(None)
}

// The next segment command, before its first section.
fn next_segment(commands: &mut MachoCommandsIterator<'_>) -> Option<Result<Segment, Damage>>
    ensures bytes { commands.new.bytes.now ≡ commands.old.bytes.now }
    ensures fewer { OnSome result (commands.new.left < commands.old.left) }
    ensures steps { StepsSegment commands.old.bytes.now (commands_left commands.old) result
        (commands_left commands.new) }
{
    while let Some(item) = commands.next() {
        match item {
            Err(damage) => return Some(Err(damage)),
            Ok(command) => {
                if command.kind == LC_SEGMENT_64 {
                    return Some(first_of_segment(commands.bytes, command));
                }
            }
        }
    }
    None
}

// The segment of a command whose head lies in the file, before its first section; refused if its count is truncated.
fn first_of_segment(bytes: &[u8], command: Command) -> Result<Segment, Damage>
    requires { command.offset + 8 ≤ length bytes.now }
    ensures { MatchResult result
        (λ s. (s.body ≡ command.offset + 8) × (s.next ≡ 0)
        × (segment_from bytes.now s ≡ segment bytes.now (command.offset + 8)))
        (λ d. segment bytes.now (command.offset + 8) ≡ ended (Some (damage_refusal d))) }
{
    let body = command.offset + 8;
    match number_at(bytes, body + 56, ByteOrder::LittleEndian) {
        Err(_) => Err(Damage::Truncated),
        Ok(count) => Ok(Segment {
            body,
            count,
            next: 0,
        }),
    }
}

/// The first section that the callback accepts, in a file with this header: the answer of `find_section` of a reader.
pub fn find_section<'a, F: Fn(Section<'_>) -> bool>(
    file: &'a [u8],
    header: MachoHeader,
    callback: F,
) -> Result<Option<Section<'a>>, ParseError>
    requires header { header_view header ≡ header_of file.now }
    requires asked { All (MayBeAsked section_view (F.pre callback)) (walk file.now).items }
    ensures { FirstAccepted refusal_of section_view (F.post callback) (walk file.now) result }
{
    Ok(first_section(file, header, callback)?)
}

// The first section that the callback accepts. The error holds no text, so that a closure may borrow.
fn first_section<'a, F: Fn(Section<'_>) -> bool>(
    file: &'a [u8],
    header: MachoHeader,
    callback: F,
) -> Result<Option<Section<'a>>, Damage>
    requires header { header_view header ≡ header_of file.now }
    requires asked { All (MayBeAsked section_view (F.pre callback)) (walk file.now).items }
    ensures { FirstAccepted damage_refusal section_view (F.post callback) (walk file.now) result }
{
    let mut left = all_left(file, header);
    while let Some(item) = next_section(&mut left) {
        let section = item?;
        if callback(section) {
            return Ok(Some(section));
        }
    }
    Ok(None)
}

/// The first section with these two names, in a file with this header.
pub fn section_with_name<'a>(
    file: &'a [u8],
    header: MachoHeader,
    segment_name: &str,
    section_name: &str,
) -> Result<Option<Section<'a>>, ParseError>
    requires { header_view header ≡ header_of file.now }
    ensures { Gives refusal_of (option_map section_view)
        (first (λ s. is_named segment_name.now section_name.now s) (walk file.now)) result }
{
    Ok(first_section(file, header, |section| {
        section.segment_name == segment_name && section.section_name == section_name
    })?)
}

// The section whose structure begins at `start`, if both its names are valid; refused if a field is truncated.
#[tactic(auto, unfolding(crate::specs::Macho::section_at, crate::specs::Macho::section_fields))]
pub(crate) fn section_at(bytes: &[u8], start: usize) -> Result<Option<Section<'_>>, UnexpectedEof>
    ensures { MatchResult result
        (λ s. (start + 52 ≤ length bytes.now) × (option_map section_view s ≡ section_at bytes.now start))
        (λ _. length bytes.now < start + 52) }
{
    let mut s = Stream::new_at(bytes, start, ByteOrder::LittleEndian)?;
    let section_name = s.read_bytes(16)?;
    let segment_name = s.read_bytes(16)?;
    let address = s.read()?;
    let size = s.read()?;
    let offset = s.read()?;
    match name_in(section_name) {
        None => Ok(None),
        Some(section_name) => match name_in(segment_name) {
            None => Ok(None),
            Some(segment_name) => Ok(Some(Section {
                segment_name,
                section_name,
                address,
                offset,
                size,
                flags: flags_at(bytes, start),
            })),
        },
    }
}

// The flags of the section whose structure begins at `start`; 0 if they are truncated.
#[tactic(auto, unfolding(crate::specs::Macho::flags_at))]
pub(crate) fn flags_at(bytes: &[u8], start: usize) -> u32
    requires { start ≤ length bytes.now }
    ensures { result ≡ flags_at bytes.now start }
{
    number_at(bytes, start + 64, ByteOrder::LittleEndian).unwrap_or(0)
}

// The name in a field's bytes: those up to the first NUL, or all if there is none.
#[tactic(auto, using(crate::proofs::SectionNames::name_is, crate::proofs::SectionNames::name_empty))]
pub(crate) fn name_in(bytes: &[u8]) -> Option<&str>
    ensures { option_map (λ t. t.now) result ≡ padded_name bytes.now }
{
    let name = up_to_nul(bytes);
    if name.is_empty() {
        return None;
    }
    utf8_text(name)
}
