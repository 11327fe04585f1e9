//! The names of sections ("Section Table (Section Headers)", Name), of which long ones are in the string table.

ghost use Rattle.std.specs.Prelude.{◌≡◌, ◌≤◌, length};
ghost use Rattle.std.specs.Option.{option_map};
ghost use Rattle.binfarce_pe.specs.PeNames.{decimal_in, full_name, has_long_names, offset_in, string_table, strings_of, text_in};
ghost use Rattle.binfarce_pe.specs.PeParts.{headers_view, places_of, places_view, table_walk};

use crate::parts::TableOffsets;
use crate::sections::{Table, first_section};
use binfarce_bytes::ByteOrder;
use binfarce_bytes::parser::{number_at, parse_null_string, to_index};

// The length in bytes of the string table's own length, with which it begins.
const LENGTH_LENGTH: u32 = 4;

// How many digits a name of 8 bytes has room for behind a slash.
const MOST_DIGITS: usize = 7;

/// The string table of a file whose tables are at these places, a slice of the file: as many bytes as it states, or up
/// to the file's end. Empty if there is none.
#[tactic(auto, unfolding(crate::specs::PeNames::strings_of), using(crate::proofs::Strings::outside))]
pub fn strings_of(file: &[u8], places: TableOffsets) -> &[u8]
    requires { places_view places ≡ places_of file.now }
    ensures { result.now ≡ strings_of file.now }
{
    let offset = to_index(places.symbols.saturating_add(places.symbols_size));
    if offset == 0 {
        return &[];
    }
    if offset > file.len() {
        return &[];
    }
    string_table(&file[offset..])
}

/// The string table in the bytes from its beginning on, a part of them: as many as it states, or all. Empty where they
/// have no room for its length.
#[tactic(auto, unfolding(crate::specs::PeNames::string_table))]
pub fn string_table(bytes: &[u8]) -> &[u8]
    ensures { result.now ≡ string_table bytes.now }
{
    match number_at::<u32>(bytes, 0, ByteOrder::LittleEndian) {
        Err(_) => &[],
        Ok(size) => &bytes[..bytes.len().min(size as usize)],
    }
}

/// A section's name. A stored name `/N`, with N in decimal digits, is the text at offset N of the string table, if there
/// is one; any other name, and that of a number that leads to no text, is as it is stored. Nothing is copied.
#[tactic(auto, unfolding(crate::specs::PeNames::full_name))]
pub fn full_name<'a>(strings: &'a [u8], stored: &'a str) -> &'a str
    ensures { result.now ≡ full_name strings.now stored.now }
{
    match offset_in(stored) {
        None => stored,
        Some(offset) => text_in(strings, offset).unwrap_or(stored),
    }
}

// The text at an offset of the string table; its first bytes are its length, and no text.
fn text_in(strings: &[u8], offset: u32) -> Option<&str>
    ensures { option_map (λ t. t.now) result ≡ text_in strings.now offset }
{
    if offset < LENGTH_LENGTH {
        return None;
    }
    parse_null_string(strings, offset as usize)
}

// The offset in the string table that a stored name states.
#[tactic(auto, unfolding(crate::specs::PeNames::offset_in))]
fn offset_in(stored: &str) -> Option<u32>
    ensures { result ≡ offset_in stored.now }
{
    decimal(stored.as_bytes().strip_prefix(b"/")?)
}

// The number that decimal digits write.
fn decimal(digits: &[u8]) -> Option<u32>
    ensures { result ≡ decimal_in digits.now }
{
    if digits.is_empty() || digits.len() > MOST_DIGITS {
        return None;
    }
    let mut number = 0;
    for digit in digits {
        number = 10 * number + char::from(*digit).to_digit(10)?;
    }
    Some(number)
}

/// Whether the name of a section of the table is in the string table.
#[tactic(auto, unfolding(crate::specs::PeNames::has_long_names))]
pub fn has_long_names(table: Table<'_>) -> bool
    ensures { result ≡ has_long_names (table_walk (headers_view table.entry)) }
{
    match first_section(table, |section| offset_in(section.name).is_some()) {
        Err(_) => false,
        Ok(found) => found.is_some(),
    }
}
