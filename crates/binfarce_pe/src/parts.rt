//! The tables that the symbols of a file need, found in the file header and the section headers alone.

ghost use Rattle.std.specs.Prelude.{◌≡◌, ◌<◌, ◌≤◌, length, MatchResult};
ghost use Rattle.binfarce_bytes.specs.declared.ByteOrder.TheVariants.{LittleEndian};
ghost use Rattle.binfarce_bytes.specs.Number.{number, bytes_at};
ghost use Rattle.binfarce_bytes.specs.Refusal.{Gives, refusal_of, unexpected_eof};
ghost use Rattle.binfarce_pe.specs.Pe.{header_after};
ghost use Rattle.binfarce_pe.specs.PeParts.{places_after, places_view, headers_view, text_place, text_view};
ghost use Rattle.binfarce_pe.specs.PeViews.{header_view};

use crate::header::{PeHeader, header_after};
use crate::sections::{Table, section_named};
use crate::symbols::SYMBOL_LENGTH;
use binfarce_bytes::parser::number_at;
use binfarce_bytes::{ByteOrder, ParseError};

/// The position in the MS-DOS stub of the signature's offset.
pub const SIGNATURE_POINTER: usize = 0x3c;

/// The length in bytes of the signature and the file header.
pub const HEADERS_LENGTH: u64 = 24;

/// The length in bytes of the beginning of an optional header that states the image base.
pub const OPTIONAL_HEADER_LENGTH: usize = 32;

/// The length in bytes of a section header.
pub const SECTION_LENGTH: usize = 40;

/// Where the tables of a file are, in bytes from its beginning.
#[derive(Clone, Copy)]
pub struct TableOffsets {
    /// Where the optional header begins.
    pub optional_header: u64,
    /// How many of its first 32 bytes it has; they state the image base.
    pub optional_header_size: usize,
    /// Where the section table begins.
    pub sections: u64,
    /// How many section headers it has.
    pub section_count: u16,
    /// Where the symbol table begins.
    pub symbols: u64,
    /// How many bytes its records have.
    pub symbols_size: u64,
}

/// The index of the section `.text`, counted from 0, and how many bytes it has in the file.
#[derive(Clone, Copy)]
pub struct Text {
    pub index: u16,
    pub size: u32,
}

/// The offset of the signature, from the first 4 bytes. Refused if there are fewer.
pub fn signature_in(pointer: &[u8]) -> Result<u32, ParseError>
    ensures { MatchResult result
        (λ n. (4 ≤ length pointer.now) × (n ≡ number LittleEndian (bytes_at pointer.now 0 4)))
        (λ e. (length pointer.now < 4) × (refusal_of e ≡ unexpected_eof)) }
{
    Ok(number_at(pointer, 0, ByteOrder::LittleEndian)?)
}

/// The places that a file header states: `headers` begins with the signature, which is at this offset of the file.
/// Refused if the file header is truncated.
pub fn places_in(headers: &[u8], signature: u32) -> Result<TableOffsets, ParseError>
    ensures { MatchResult result
        (λ p. (24 ≤ length headers.now) × (places_view p ≡ places_after signature (header_after headers.now 0)))
        (λ e. (length headers.now < 24) × (refusal_of e ≡ unexpected_eof)) }
{
    let header = header_after(headers, 0)?;
    Ok(places_after(signature, header))
}

/// The places that this file header states, where the signature is at this offset of the file.
pub fn places_after(signature: u32, header: PeHeader) -> TableOffsets
    ensures { places_view result ≡ places_after signature (header_view header) }
{
    let optional_header = u64::from(signature) + HEADERS_LENGTH;
    let size = header.size_of_optional_header;
    TableOffsets {
        optional_header,
        optional_header_size: usize::from(size).min(OPTIONAL_HEADER_LENGTH),
        sections: optional_header + u64::from(size),
        section_count: header.number_of_sections,
        symbols: u64::from(header.pointer_to_symbol_table),
        symbols_size: u64::from(header.number_of_symbols) * SYMBOL_LENGTH as u64,
    }
}

/// The first section `.text` of a table. Refused as `functions` of a reader is, up to `SymbolsSectionIsMissing`.
pub fn text_in(table: Table<'_>) -> Result<Text, ParseError>
    ensures { Gives refusal_of text_view (text_place (headers_view table.entry)) result }
{
    let text = section_named(table, ".text")?.ok_or(ParseError::SymbolsSectionIsMissing)?;
    Ok(Text {
        index: text.index,
        size: text.size_of_raw_data,
    })
}
