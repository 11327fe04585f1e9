//! The two classes of ELF files: their words, and their different layouts.

ghost use Rattle.std.specs.Prelude.{◌≡◌, ◌+◌, ◌*◌, ◌<◌, ◌≤◌, ℕ, List, length, MatchResult};
ghost use Rattle.binfarce_bytes.specs.Number.{number};
ghost use Rattle.binfarce_elf.specs.Classes.{class_of};
ghost use Rattle.binfarce_elf.specs.Elf.{elf32, elf64, entry_count};
ghost use Rattle.binfarce_elf.specs.ElfSymbols.{symbol_at};
ghost use Rattle.binfarce_elf.specs.machine.RawElf.{symbol_view, fields_of_header, fields_of_section};

use binfarce_bytes::ByteOrder;
use binfarce_bytes::parser::{RawNumber, UnexpectedEof, number_at, slice_at};

// The standard's data types (gABI, "Data Representation"); addresses and offsets are words of the class.
pub type Half = u16;

pub type Word = u32;

pub type XWord = u64;

/// The class of a file (`EI_CLASS`), by the width of its words.
#[derive(Debug, Clone, Copy, PartialEq)]
pub enum Width {
    /// `ELFCLASS32`
    Bits32,
    /// `ELFCLASS64`
    Bits64,
}

impl Width {
    /// The length of the file header in bytes.
    #[tactic(auto, unfolding(crate::specs::Elf::elf32, crate::specs::Elf::elf64))]
    pub fn header_length(self) -> usize
        ensures { result ≡ (class_of self).header_length }
    {
        match self {
            Width::Bits32 => 52,
            Width::Bits64 => 64,
        }
    }

    /// The length of a section header in bytes.
    #[tactic(auto, unfolding(crate::specs::Elf::elf32, crate::specs::Elf::elf64))]
    pub fn section_length(self) -> usize
        ensures is { result ≡ (class_of self).section_length }
        ensures some { (0 < result) × (result ≤ 64) }
    {
        match self {
            Width::Bits32 => 40,
            Width::Bits64 => 64,
        }
    }

    /// The length of a symbol table entry in bytes.
    #[tactic(auto, unfolding(crate::specs::Elf::elf32, crate::specs::Elf::elf64))]
    pub fn symbol_length(self) -> usize
        ensures is { result ≡ (class_of self).symbol_length }
        ensures some { 0 < result }
    {
        match self {
            Width::Bits32 => 16,
            Width::Bits64 => 24,
        }
    }
}

/// A row of a symbol table, with values of the wider class's widths.
#[derive(Clone, Copy)]
pub struct SymbolRow {
    pub name: Word,
    pub value: XWord,
    pub size: XWord,
    pub info: u8,
    pub other: u8,
    pub section: Half,
}

/// A class of ELF files, named by its word: `u32` for ELFCLASS32, `u64` for ELFCLASS64.
///
/// Addresses, offsets in the file, and the sizes of sections have a word's width.
pub trait Class: RawNumber + Copy + Drop {
    ghost use Rattle.std.specs.Prelude.{ℕ};
    ghost use Rattle.binfarce_bytes.specs.declared.ByteOrder.{ByteOrder};
    ghost use Rattle.binfarce_elf.specs.Classes.{class_of};
    ghost use Rattle.binfarce_elf.specs.Elf.{ElfClass};

    ghost table: { ElfClass };

    ghost number_of: { Self → ℕ };

    ghost SECTION_LENGTH: { ℕ };

    /// The name of the file header's type, as it is printed.
    const HEADER: &'static str;

    /// The length of a section header in bytes.
    const SECTION_LENGTH: usize;

    /// The class as a value.
    fn width() -> Width
        ensures { class_of result ≡ table };

    /// The word in the wider class's type.
    fn widened(self) -> u64
        ensures { result ≡ number_of self };

    /// How many entries of a size there are in this size; 0 if the entry size is 0.
    fn entries_of(self, entry_size: Self) -> Self
        ensures { number_of result ≡ entry_count (number_of self) (number_of entry_size) };

    ghost word: { (order : ByteOrder) (bytes : List ℕ) → number_of (Self.value order bytes) ≡ number order bytes };

    ghost narrow_word: { Self.SIZE ≤ 8 };

    ghost header: { table.header ≡ fields_of_header Self.SIZE };

    ghost header_length: { table.header_length ≡ 40 + 3 * Self.SIZE };

    ghost section: { table.section ≡ fields_of_section Self.SIZE };

    ghost section_fields: { table.section_length ≡ 16 + 6 * Self.SIZE };

    ghost section_length: { SECTION_LENGTH ≡ table.section_length };

    ghost some_section: { 0 < SECTION_LENGTH };
}

impl Class for u32 {
    ghost use Rattle.std.proofs.Common.{refl, lit<};

    ghost table = { elf32 };

    ghost number_of = { λ n. n };

    ghost SECTION_LENGTH = { 40 };

    const HEADER: &'static str = "Elf32Header";

    const SECTION_LENGTH: usize = 40;

    fn width() -> Width {
        Width::Bits32
    }

    fn widened(self) -> u64 {
        u64::from(self)
    }

    fn entries_of(self, entry_size: u32) -> u32 {
        self.checked_div(entry_size).unwrap_or(0)
    }

    ghost word = { λ order bytes. refl };

    ghost narrow_word = { lit< tt };

    ghost header = { unfold elf32 in refl };

    ghost header_length = { unfold elf32 in refl };

    ghost section = { unfold elf32 in refl };

    ghost section_fields = { unfold elf32 in refl };

    ghost section_length = { unfold elf32 in refl };

    ghost some_section = { lit< tt };
}

impl Class for u64 {
    ghost use Rattle.std.proofs.Common.{refl, lit<};

    ghost table = { elf64 };

    ghost number_of = { λ n. n };

    ghost SECTION_LENGTH = { 64 };

    const HEADER: &'static str = "Elf64Header";

    const SECTION_LENGTH: usize = 64;

    fn width() -> Width {
        Width::Bits64
    }

    fn widened(self) -> u64 {
        self
    }

    fn entries_of(self, entry_size: u64) -> u64 {
        self.checked_div(entry_size).unwrap_or(0)
    }

    ghost word = { λ order bytes. refl };

    ghost narrow_word = { lit< tt };

    ghost header = { unfold elf64 in refl };

    ghost header_length = { unfold elf64 in refl };

    ghost section = { unfold elf64 in refl };

    ghost section_fields = { unfold elf64 in refl };

    ghost section_length = { unfold elf64 in refl };

    ghost some_section = { lit< tt };
}

/// The row at `start` of a symbol table of this class; refused if it is truncated.
#[inline(always)]
pub fn row_at(
    width: Width,
    bytes: &[u8],
    start: usize,
    byte_order: ByteOrder,
) -> Result<SymbolRow, UnexpectedEof>
    ensures { MatchResult result
        (λ r. (start + (class_of width).symbol_length ≤ length bytes.now)
        × (symbol_view r ≡ symbol_at (class_of width) byte_order bytes.now start))
        (λ _. length bytes.now < start + (class_of width).symbol_length) }
{
    match width {
        Width::Bits32 => row_at_32(bytes, start, byte_order),
        Width::Bits64 => row_at_64(bytes, start, byte_order),
    }
}

// Of a slice of one row, whose length the compiler knows, no read of a field checks bounds.
#[inline(always)]
#[tactic(auto, unfolding(crate::specs::Elf::elf32))]
fn row_at_32(bytes: &[u8], start: usize, byte_order: ByteOrder) -> Result<SymbolRow, UnexpectedEof>
    ensures { MatchResult result
        (λ r. (start + elf32.symbol_length ≤ length bytes.now)
        × (symbol_view r ≡ symbol_at elf32 byte_order bytes.now start))
        (λ _. length bytes.now < start + elf32.symbol_length) }
{
    let row = slice_at(bytes, start, 16)?;
    Ok(SymbolRow {
        name: number_at(row, 0, byte_order)?,
        value: u64::from(number_at::<u32>(row, 4, byte_order)?),
        size: u64::from(number_at::<u32>(row, 8, byte_order)?),
        info: number_at(row, 12, byte_order)?,
        other: number_at(row, 13, byte_order)?,
        section: number_at(row, 14, byte_order)?,
    })
}

#[inline(always)]
#[tactic(auto, unfolding(crate::specs::Elf::elf64))]
fn row_at_64(bytes: &[u8], start: usize, byte_order: ByteOrder) -> Result<SymbolRow, UnexpectedEof>
    ensures { MatchResult result
        (λ r. (start + elf64.symbol_length ≤ length bytes.now)
        × (symbol_view r ≡ symbol_at elf64 byte_order bytes.now start))
        (λ _. length bytes.now < start + elf64.symbol_length) }
{
    let row = slice_at(bytes, start, 24)?;
    Ok(SymbolRow {
        name: number_at(row, 0, byte_order)?,
        info: number_at(row, 4, byte_order)?,
        other: number_at(row, 5, byte_order)?,
        section: number_at(row, 6, byte_order)?,
        value: number_at(row, 8, byte_order)?,
        size: number_at(row, 16, byte_order)?,
    })
}
