//! The sections of a file (Microsoft PE Format, "Section Table").

ghost use Rattle.std.specs.Prelude.{◌≡◌, ◌+◌, ◌<◌, ◌≤◌, length, All, Some, None, MatchOption, MatchResult};
ghost use Rattle.std.specs.Option.{option_map};
ghost use Rattle.binfarce_bytes.specs.Refusal.{Gives, refusal_of, unexpected_eof};
ghost use Rattle.binfarce_bytes.specs.Text.{padded_text};
ghost use Rattle.binfarce_bytes.specs.Walk.{MayBeAsked, FirstAccepted, first, ended, ahead_of};
ghost use Rattle.binfarce_pe.specs.Pe.{section_at, characteristics_at, section_data, walk, is_named};
ghost use Rattle.binfarce_pe.specs.PeParts.{headers_view, section_table, table_walk, places_of, places_view};
ghost use Rattle.binfarce_pe.specs.PeViews.{section_view};
ghost use Rattle.binfarce_pe.specs.machine.RawPe.{header_count, walk_from};

use crate::parts::{SECTION_LENGTH, TableOffsets};
use binfarce_bytes::parser::{
    Stream, UnexpectedEof, number_at, range, slice_at, to_index, up_to_nul, utf8_text,
};
use binfarce_bytes::{ByteOrder, ParseError};
use std::marker::Model;
use std::ops::Range;

/// A section header's values ("Section Table"), and the section's index, counted from 0.
///
/// The name is a slice of the file; the section borrows the file, and not its reader.
#[derive(Debug, Clone, Copy)]
pub struct Section<'a> {
    pub(crate) name: &'a str,
    pub(crate) virtual_size: u32,
    pub(crate) virtual_address: u32,
    pub(crate) size_of_raw_data: u32,
    pub(crate) pointer_to_raw_data: u32,
    pub(crate) characteristics: u32,
    pub(crate) index: u16,
}

impl Section<'_> {
    /// The section's bytes as a range of the file: from its raw pointer on, as many as its raw size.
    ///
    /// The range isn't checked against the file's length.
    ///
    /// # Errors
    ///
    /// None: the range always fits a `usize` of 64 bits. `MalformedInput` if its end exceeds one of 32 bits.
    pub fn range(&self) -> Result<Range<usize>, ParseError>
        ensures { let s = section_view self.now in MatchResult result
            (λ r. (r.start ≡ s.pointer_to_raw_data) × (r.end ≡ s.pointer_to_raw_data + s.size_of_raw_data))
            (λ _. ⊥) }
    {
        range(
            self.pointer_to_raw_data as u64,
            self.size_of_raw_data as u64,
        )
    }
}

/// The section's bytes, a slice of the file; `UnexpectedEof` if they end past the file.
#[tactic(auto, unfolding(binfarce_bytes::specs::Refusal::bytes_in_file))]
pub fn section_data<'a>(file: &'a [u8], section: &Section<'_>) -> Result<&'a [u8], ParseError>
    ensures { Gives refusal_of (λ b. b.now) (section_data file.now (section_view section.now)) result }
{
    let (offset, size) = (section.pointer_to_raw_data, section.size_of_raw_data);
    Ok(slice_at(file, offset as usize, size as usize)?)
}

/// An iterator over the sections of a file, in file order: the result of `Pe::sections`. It borrows the file's bytes.
///
/// A section header is read on demand. `UnexpectedEof` is given for a header that is truncated, and where the section
/// table doesn't begin in the file; nothing follows it.
#[must_use = "iterators are lazy and do nothing unless consumed"]
#[derive(Clone, Drop)]
pub struct Sections<'a> {
    table: Table<'a>,
    // The index of the next section header; none after a refusal.
    next: Option<u16>,
}

/// Section headers: the bytes that hold them, their offset in these bytes, and their number.
#[derive(Clone, Copy)]
pub struct Table<'a> {
    pub bytes: &'a [u8],
    pub offset: usize,
    pub count: u16,
}

impl<'a> Model for Sections<'a> {
    ghost use Rattle.std.specs.Prelude.{◌≡◌, ◌≤◌, IfSome};
    ghost use Rattle.binfarce_bytes.specs.Walk.{Walk};
    ghost use Rattle.binfarce_pe.specs.Pe.{Section};
    ghost use Rattle.binfarce_pe.specs.PeParts.{headers_view};
    ghost use Rattle.binfarce_pe.specs.machine.RawPe.{header_count, walk_from};

    ghost Value = { Walk Section };

    ghost view = { λ s. walk_from (headers_view s.table) s.next };

    ghost invariant = { λ s. IfSome s.next (λ index. index ≤ header_count (headers_view s.table)) };
}

/// All sections of a file whose tables are at these places.
pub fn sections_of<'a>(file: &'a [u8], places: TableOffsets) -> Sections<'a>
    requires { places_view places ≡ places_of file.now }
    ensures { result ≡ walk file.now }
{
    Sections {
        table: section_table(file, places),
        next: Some(0),
    }
}

/// The section headers of a file.
pub(crate) fn section_table<'a>(file: &'a [u8], places: TableOffsets) -> Table<'a>
    requires { places_view places ≡ places_of file.now }
    ensures { headers_view result ≡ section_table file.now }
{
    Table {
        bytes: file,
        offset: to_index(places.sections),
        count: places.section_count,
    }
}

impl<'a> Iterator for Sections<'a> {
    ghost use Rattle.binfarce_bytes.specs.Refusal.{refusal_of};
    ghost use Rattle.binfarce_bytes.specs.Walk.{YieldsNext, walk_count};
    ghost use Rattle.binfarce_pe.specs.PeViews.{section_view};

    type Item = Result<Section<'a>, ParseError>;

    ghost next_gives = { YieldsNext refusal_of section_view };

    ghost remaining = { walk_count };

    fn next(&mut self) -> Option<Result<Section<'a>, ParseError>> {
        let index = self.next?;
        match section_left(self.table, index) {
            Err(_) => {
                self.next = None;
                Some(Err(ParseError::UnexpectedEof))
            }
            Ok(None) => None,
            Ok(Some((section, next))) => {
                self.next = Some(next);
                Some(Ok(section))
            }
        }
    }
}

// The first section from this index on, where the headers before it were whole, and the index after its own; `None`
// if there are no more.
#[inline]
fn section_left<'a>(
    table: Table<'a>,
    from: u16,
) -> Result<Option<(Section<'a>, u16)>, UnexpectedEof>
    requires { from ≤ header_count (headers_view table) }
    ensures { let headers = headers_view table.entry in let left = walk_from headers (Some from) in MatchResult result
        (λ found. MatchOption found (left ≡ ended None)
        (λ f. (f.1 ≤ header_count headers) × (left ≡ ahead_of (section_view f.0) (walk_from headers (Some f.1)))))
        (λ _. left ≡ ended (Some unexpected_eof)) }
{
    if table.offset >= table.bytes.len() {
        return Err(UnexpectedEof {});
    }
    for index in from..table.count {
        let start = table.offset + index as usize * SECTION_LENGTH;
        match section_at(table.bytes, start, index) {
            Err(e) => return Err(e),
            Ok(None) => {}
            Ok(Some(section)) => return Ok(Some((section, index + 1))),
        }
    }
    Ok(None)
}

/// The first section of the file that the callback accepts.
pub fn first_of_file<'a, F: Fn(Section<'a>) -> bool>(
    file: &'a [u8],
    places: TableOffsets,
    callback: F,
) -> Result<Option<Section<'a>>, UnexpectedEof>
    requires places { places_view places ≡ places_of file.now }
    requires asked { All (MayBeAsked section_view (F.pre callback)) (walk file.now).items }
    ensures { FirstAccepted (λ _. unexpected_eof) section_view (F.post callback) (walk file.now) result }
{
    first_section(section_table(file, places), callback)
}

// The first section of the table that the callback accepts.
pub(crate) fn first_section<'a, F: Fn(Section<'a>) -> bool>(
    table: Table<'a>,
    callback: F,
) -> Result<Option<Section<'a>>, UnexpectedEof>
    requires { All (MayBeAsked section_view (F.pre callback)) (table_walk (headers_view table)).items }
    ensures { FirstAccepted
        (λ _. unexpected_eof) section_view (F.post callback) (table_walk (headers_view table.entry)) result }
{
    let mut next = 0;
    while let Some((section, after)) = section_left(table, next)? {
        if is_accepted(&callback, section) {
            return Ok(Some(section));
        }
        next = after;
    }
    Ok(None)
}

/// The first section with this name.
pub fn section_with_name<'a>(
    file: &'a [u8],
    places: TableOffsets,
    name: &str,
) -> Result<Option<Section<'a>>, UnexpectedEof>
    requires { places_view places ≡ places_of file.now }
    ensures { Gives (λ _. unexpected_eof) (option_map section_view)
        (first (λ s. is_named name.now s) (walk file.now)) result }
{
    section_named(section_table(file, places), name)
}

// The first section of a table with this name. The error holds no text, so that the closure may borrow the name.
pub(crate) fn section_named<'a>(
    table: Table<'a>,
    name: &str,
) -> Result<Option<Section<'a>>, UnexpectedEof>
    ensures { Gives (λ _. unexpected_eof) (option_map section_view)
        (first (λ s. is_named name.now s) (table_walk (headers_view table.entry))) result }
{
    first_section(table, |section| section.name == name)
}

fn is_accepted<'a, F: Fn(Section<'a>) -> bool>(callback: &F, section: Section<'a>) -> bool
    requires { F.pre callback.now section }
    ensures { F.post callback.now section.entry result }
{
    callback(section)
}

// The section whose header begins at `start`, if its name is UTF-8; refused if a field is truncated.
#[tactic(auto, unfolding(crate::specs::Pe::section_fields, crate::specs::Pe::section_at))]
pub(crate) fn section_at(
    bytes: &[u8],
    start: usize,
    index: u16,
) -> Result<Option<Section<'_>>, UnexpectedEof>
    ensures { MatchResult result
        (λ o. (start + 24 ≤ length bytes.now) × (option_map section_view o ≡ section_at bytes.now start index))
        (λ _. length bytes.now < start + 24) }
{
    let mut s = Stream::new_at(bytes, start, ByteOrder::LittleEndian)?;
    let name = s.read_bytes(8)?;
    let virtual_size = s.read()?;
    let virtual_address = s.read()?;
    let size_of_raw_data = s.read()?;
    let pointer_to_raw_data = s.read()?;
    match short_name(name) {
        None => Ok(None),
        Some(name) => Ok(Some(Section {
            name,
            virtual_size,
            virtual_address,
            size_of_raw_data,
            pointer_to_raw_data,
            characteristics: characteristics_at(bytes, start),
            index,
        })),
    }
}

// The flags of the section whose header begins at `start`; 0 if they are truncated.
#[tactic(auto, unfolding(crate::specs::Pe::characteristics_at))]
fn characteristics_at(bytes: &[u8], start: usize) -> u32
    requires { start ≤ length bytes.now }
    ensures { result ≡ characteristics_at bytes.now start }
{
    number_at(bytes, start + 36, ByteOrder::LittleEndian).unwrap_or(0)
}

// The bytes up to the first NUL, or all if there is none, as UTF-8.
#[tactic(auto, unfolding(binfarce_bytes::specs::Text::padded_text))]
pub(crate) fn short_name(bytes: &[u8]) -> Option<&str>
    ensures { option_map (λ t. t.now) result ≡ padded_text bytes.now }
{
    utf8_text(up_to_nul(bytes))
}
