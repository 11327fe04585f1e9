//! The sections of a file of either class: their headers, the walk over these, and the names (gABI, "Sections").

ghost use Rattle.std.specs.Prelude.{◌≡◌, ◌+◌, ◌<◌, ◌≤◌, ◌^◌, length, All, Some, None, Decides, MatchOption, MatchResult, IfSome};
ghost use Rattle.std.specs.Option.{option_map};
ghost use Rattle.binfarce_bytes.specs.Refusal.{Gives, refusal_of, malformed_input, unexpected_eof};
ghost use Rattle.binfarce_bytes.specs.Text.{IsTextAt};
ghost use Rattle.binfarce_bytes.specs.Walk.{MayBeAsked, FirstAccepted, first, ended, ahead_of};
ghost use Rattle.binfarce_elf.specs.Elf.{ElfFile, header_of, section_table, walk, name_of, entry_count, NameIsInFile, section_at, names_section, names_bytes, name_among};
ghost use Rattle.binfarce_elf.specs.ElfSymbols.{is_named, section_data};
ghost use Rattle.binfarce_elf.specs.ElfViews.{header_view, section_view};
ghost use Rattle.binfarce_elf.specs.machine.RawElf.{table_view, section_count, walk_from};

use crate::class::{Class, Half, Word};
use crate::header::Header;
use binfarce_bytes::parser::{Stream, UnexpectedEof, parse_null_string, range, slice_at, to_index};
use binfarce_bytes::{ByteOrder, ParseError};
use std::marker::{Model, PhantomData};
use std::ops::Range;

/// A section header's values (gABI, "Section Header"), and the section's index. It borrows nothing.
#[derive(Debug, Clone, Copy)]
pub struct Section<C> {
    pub(crate) index: Half,
    pub(crate) name_offset: Word,
    pub(crate) kind: Word,
    pub(crate) flags: C,
    pub(crate) address: C,
    pub(crate) link: Word,
    pub(crate) offset: C,
    pub(crate) size: C,
    pub(crate) entry_size: C,
}

impl<C: Class> Section<C> {
    /// The values in the wider class's types.
    pub fn widened(self) -> Section<u64>
        ensures { section_view (λ n. n) result ≡ section_view C.number_of self }
    {
        Section {
            index: self.index,
            name_offset: self.name_offset,
            kind: self.kind,
            flags: self.flags.widened(),
            address: self.address.widened(),
            link: self.link,
            offset: self.offset.widened(),
            size: self.size.widened(),
            entry_size: self.entry_size.widened(),
        }
    }

    /// The section's bytes as a range of the file (`sh_offset`, `sh_size`). It isn't checked against the file's length.
    ///
    /// # Errors
    ///
    /// `MalformedInput` if the range's end exceeds `usize`.
    pub fn range(&self) -> Result<Range<usize>, ParseError>
        ensures { let s = section_view C.number_of self.now in MatchResult result
            (λ r. (r.start ≡ s.offset) × (r.end ≡ s.offset + s.size))
            (λ e. (2 ^ 64 ≤ s.offset + s.size) × (refusal_of e ≡ malformed_input)) }
    {
        range(self.offset.widened(), self.size.widened())
    }

    /// How many entries of its entry size (`sh_entsize`) the section has; 0 if that size is 0.
    pub fn entries(&self) -> C
        ensures { let s = section_view C.number_of self.now in C.number_of result ≡ entry_count s.size s.entry_size }
    {
        self.size.entries_of(self.entry_size)
    }

    /// The section's name, a slice of the file of `parent`; nothing is copied.
    ///
    /// `None` where the section of the section names, at index `shstrndx`, is truncated or lies outside the file.
    /// `None` also if there is no text at the name's offset: it has to be UTF-8, not empty, and end with a NUL
    /// (gABI, "String Table").
    #[tactic(auto, using(crate::proofs::Names::name_reported))]
    pub fn name<'a, P: HasSections<'a, C>>(&self, parent: &P) -> Option<&'a str>
        ensures name { option_map
            (λ t. t.now) result ≡ name_of C.table (section_table C.table (P.file parent.now))
            (section_view C.number_of self.now) }
        ensures part { IfSome (option_map (λ t. t.now) result)
            (NameIsInFile C.table (section_table C.table (P.file parent.now)) (section_view C.number_of self.now)) }
    {
        section_name::<C>(parent.section_table(), *self)
    }

    /// Whether this is the section's name, as `name` gives it. Of the section names only as many bytes as this one has
    /// are compared, and the one after them.
    #[tactic(auto, unfolding(crate::specs::Elf::name_of))]
    pub fn is_named<'a, P: HasSections<'a, C>>(&self, parent: &P, name: &str) -> bool
        ensures { result ≡ is_named name.now (name_of C.table (section_table C.table (P.file parent.now))
            (section_view C.number_of self.now)) }
    {
        is_named(
            names_bytes::<C>(parent.section_table()),
            self.name_offset,
            name,
        )
    }
}

/// The section header table of a file, as its header states it.
#[derive(Clone, Copy)]
pub struct Table<'a> {
    /// The file's bytes.
    pub data: &'a [u8],
    pub byte_order: ByteOrder,
    pub shoff: usize,
    pub shnum: Half,
    pub shstrndx: Half,
}

/// A file of this class with a section header table, in which a section looks up its name.
pub trait HasSections<'a, C: Class> {
    ghost use Rattle.binfarce_elf.specs.Elf.{ElfFile};

    // The file's bytes, and their order.
    ghost file: { Self → ElfFile };

    /// The file's section header table, as its header states it.
    fn section_table(&self) -> Table<'a>
        ensures { table_view result ≡ section_table C.table (file self.now) };
}

/// The section header table of a file with this header, as the header states it.
#[tactic(auto, unfolding(crate::specs::Elf::section_table))]
pub fn section_table<'a, C: Class>(
    file: &'a [u8],
    byte_order: ByteOrder,
    header: &Header<C>,
) -> Table<'a>
    requires { header_view C.number_of header.now ≡ header_of C.table byte_order file.now }
    ensures { table_view result ≡ section_table C.table (record { order = byte_order; bytes = file.entry.now }) }
{
    Table {
        data: file,
        byte_order,
        shoff: to_index(header.shoff.widened()),
        shnum: header.shnum,
        shstrndx: header.shstrndx,
    }
}

/// The section header at `start`, of the section with this index; refused if it is truncated.
#[inline(always)]
pub fn section_at<C: Class>(
    bytes: &[u8],
    start: usize,
    byte_order: ByteOrder,
    index: Half,
) -> Result<Section<C>, UnexpectedEof>
    ensures { MatchResult result
        (λ s. (start + C.table.section_length ≤ length bytes.now)
        × (section_view C.number_of s ≡ section_at C.table byte_order bytes.now start index))
        (λ _. length bytes.now < start + C.table.section_length) }
{
    let mut s = Stream::new_at(bytes, start, byte_order)?;
    let name_offset = s.read()?;
    let kind = s.read()?;
    let flags = s.read()?;
    let address = s.read()?;
    let offset = s.read()?;
    let size = s.read()?;
    let link = s.read()?;
    s.skip_len(4 + C::SIZE)?; // info, addralign
    let entry_size = s.read()?;
    Ok(Section {
        index,
        name_offset,
        kind,
        flags,
        address,
        link,
        offset,
        size,
        entry_size,
    })
}

/// An iterator over the sections of a file, in file order: the result of `sections` of a reader. It borrows the file's
/// bytes.
///
/// A section header is read on demand. `UnexpectedEof` is given for a header that is truncated, and where the section
/// header table doesn't begin in the file; nothing follows it.
#[must_use = "iterators are lazy and do nothing unless consumed"]
#[derive(Clone, Drop)]
pub struct Sections<'a, C: Class> {
    table: Table<'a>,
    // The index of the next section; none after a refusal.
    next: Option<Half>,
    class: PhantomData<C>,
}

impl<'a, C: Class> Model for Sections<'a, C> {
    ghost use Rattle.std.specs.Prelude.{◌≤◌, IfSome};
    ghost use Rattle.binfarce_bytes.specs.Walk.{Walk};
    ghost use Rattle.binfarce_elf.specs.Elf.{Section};
    ghost use Rattle.binfarce_elf.specs.machine.RawElf.{table_view, section_count, walk_from};

    ghost Value = { Walk Section };

    ghost view = { λ s. walk_from C.table (table_view s.table) s.next };

    ghost invariant = { λ s. IfSome s.next (λ index. index ≤ section_count C.table (table_view s.table)) };
}

/// All sections of the table.
pub fn sections_of<'a, C: Class>(table: Table<'a>) -> Sections<'a, C>
    ensures { result ≡ walk C.table (table_view table.entry) }
{
    Sections {
        table,
        next: Some(0),
        class: PhantomData,
    }
}

impl<'a, C: Class> Iterator for Sections<'a, C> {
    ghost use Rattle.binfarce_bytes.specs.Refusal.{refusal_of};
    ghost use Rattle.binfarce_bytes.specs.Walk.{YieldsNext, walk_count};
    ghost use Rattle.binfarce_elf.specs.ElfViews.{section_view};

    type Item = Result<Section<C>, ParseError>;

    ghost next_gives = { YieldsNext refusal_of (section_view C.number_of) };

    ghost remaining = { walk_count };

    fn next(&mut self) -> Option<Result<Section<C>, ParseError>> {
        let index = self.next?;
        match section_left::<C>(self.table, index) {
            Err(_) => {
                self.next = None;
                Some(Err(ParseError::UnexpectedEof))
            }
            Ok(None) => None,
            Ok(Some(section)) => {
                self.next = Some(index + 1);
                Some(Ok(section))
            }
        }
    }
}

// The section of this index, where those before it were whole; `None` if there are no more.
#[inline]
fn section_left<C: Class>(
    table: Table<'_>,
    index: Half,
) -> Result<Option<Section<C>>, UnexpectedEof>
    requires { index ≤ section_count C.table (table_view table) }
    ensures { let left = walk_from C.table (table_view table.entry) (Some index) in MatchResult result
        (λ found. MatchOption found (left ≡ ended None)
        (λ s. (index < section_count C.table (table_view table.entry))
        × (left ≡ ahead_of (section_view C.number_of s)
        (walk_from C.table (table_view table.entry) (Some (index + 1))))))
        (λ _. left ≡ ended (Some unexpected_eof)) }
{
    if table.shoff >= table.data.len() {
        return Err(UnexpectedEof {});
    }
    if index >= table.shnum {
        return Ok(None);
    }
    let start = table.shoff + index as usize * C::SECTION_LENGTH;
    match section_at(table.data, start, table.byte_order, index) {
        Err(e) => Err(e),
        Ok(section) => Ok(Some(section)),
    }
}

/// The first section that the callback accepts.
///
/// A header is read only if the callback has refused the sections before it.
pub fn first_section<C: Class, F: Fn(Section<C>) -> bool>(
    table: Table<'_>,
    callback: F,
) -> Result<Option<Section<C>>, UnexpectedEof>
    requires { All (MayBeAsked (section_view C.number_of) (F.pre callback)) (walk C.table (table_view table)).items }
    ensures { FirstAccepted
        (λ _. unexpected_eof) (section_view C.number_of) (F.post callback)
        (walk C.table (table_view table.entry)) result }
{
    let mut index = 0;
    while let Some(section) = section_left::<C>(table, index)? {
        if callback(section) {
            return Ok(Some(section));
        }
        index += 1;
    }
    Ok(None)
}

/// The first section with this name. The section names are looked up once.
#[tactic(auto, unfolding(crate::specs::Elf::name_of))]
pub fn section_with_name<C: Class>(
    table: Table<'_>,
    name: &str,
) -> Result<Option<Section<C>>, UnexpectedEof>
    ensures { Gives (λ _. unexpected_eof) (option_map (section_view C.number_of))
        (first (λ s. is_named name.now (name_of C.table (table_view table.entry) s))
        (walk C.table (table_view table.entry))) result }
{
    section_named::<C>(table, names_bytes::<C>(table), name)
}

/// The first section with this name among the section names.
pub fn section_named<C: Class>(
    table: Table<'_>,
    names: Option<&[u8]>,
    name: &str,
) -> Result<Option<Section<C>>, UnexpectedEof>
    ensures { Gives (λ _. unexpected_eof) (option_map (section_view C.number_of))
        (first (λ s. is_named name.now (name_among (option_map (λ b. b.now) names.entry) s.name_offset))
        (walk C.table (table_view table.entry))) result }
{
    first_section::<C, _>(table, |section| is_named(names, section.name_offset, name))
}

// Whether the name among the section names at this offset is this one.
pub(crate) fn is_named(names: Option<&[u8]>, offset: Word, name: &str) -> bool
    ensures { result ≡ is_named name.now (name_among (option_map (λ b. b.now) names.entry) offset) }
{
    match names {
        None => false,
        Some(names) => is_text_at(names, offset as usize, name),
    }
}

// Whether this text is at an offset. Only as many bytes as it has are compared, and the one after them.
fn is_text_at(bytes: &[u8], start: usize, text: &str) -> bool
    ensures { Decides result (IsTextAt bytes.now start text.now) }
{
    let text = text.as_bytes();
    if text.is_empty() {
        return false;
    }
    match bytes.get(start..) {
        None => false,
        Some(rest) => match rest.strip_prefix(text) {
            None => false,
            Some(after) => after.starts_with(b"\0") && !text.contains(&0),
        },
    }
}

/// A section's name, a slice of the file.
#[tactic(auto, unfolding(crate::specs::Elf::name_of))]
pub(crate) fn section_name<'a, C: Class>(table: Table<'a>, section: Section<C>) -> Option<&'a str>
    ensures { option_map
        (λ t. t.now) result ≡ name_of C.table (table_view table.entry) (section_view C.number_of section) }
{
    name_at(names_bytes::<C>(table), section.name_offset)
}

// The name among the section names at this offset.
pub(crate) fn name_at(names: Option<&[u8]>, offset: Word) -> Option<&str>
    ensures { option_map (λ t. t.now) result ≡ name_among (option_map (λ b. b.now) names.entry) offset }
{
    parse_null_string(names?, offset as usize)
}

/// The bytes of the section of the section names, where the file has them.
#[tactic(auto, using(crate::proofs::Names::contents_read))]
pub fn names_bytes<'a, C: Class>(table: Table<'a>) -> Option<&'a [u8]>
    ensures { option_map (λ b. b.now) result ≡ names_bytes C.table (table_view table.entry) }
{
    section_data(table.data, names_section::<C>(table)?).ok()
}

// The section of the section names, which isn't checked against the count.
fn names_section<C: Class>(table: Table<'_>) -> Option<Section<C>>
    ensures { option_map (section_view C.number_of) result ≡ names_section C.table (table_view table.entry) }
{
    let before = C::SECTION_LENGTH.checked_mul(table.shstrndx as usize)?;
    let start = table.shoff.checked_add(before)?;
    section_at(table.data, start, table.byte_order, table.shstrndx).ok()
}

/// The section's name in these section names.
pub fn name_in<'a>(names: Option<&'a [u8]>, section: &Section<u64>) -> Option<&'a str>
    ensures { option_map
        (λ t. t.now) result ≡ name_among (option_map (λ b. b.now) names.entry)
        (section_view (λ n. n) section.now).name_offset }
{
    name_at(names, section.name_offset)
}

/// Whether this is the section's name in these section names.
pub fn is_named_in(names: Option<&[u8]>, section: &Section<u64>, name: &str) -> bool
    ensures { result ≡ is_named name.now (name_among (option_map (λ b. b.now) names.entry)
        (section_view (λ n. n) section.now).name_offset) }
{
    is_named(names, section.name_offset, name)
}

/// The section's index in the section header table.
pub fn index_of<C: Class>(section: Section<C>) -> Half
    ensures { result ≡ (section_view C.number_of section).index }
{
    section.index
}

/// The section's bytes, a slice of the file. `MalformedInput` if their end exceeds 64 bits, `UnexpectedEof` if
/// it lies past the file.
#[tactic(auto, unfolding(crate::specs::ElfSymbols::section_data, binfarce_bytes::specs::Refusal::bytes_in_file))]
pub fn section_data<C: Class>(file: &[u8], section: Section<C>) -> Result<&[u8], ParseError>
    ensures { Gives refusal_of (λ b. b.now) (section_data file.now (section_view C.number_of section)) result }
{
    let (offset, size) = (section.offset.widened(), section.size.widened());
    offset.checked_add(size).ok_or(ParseError::MalformedInput)?;
    Ok(slice_at(file, to_index(offset), to_index(size))?)
}
