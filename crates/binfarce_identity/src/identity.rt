//! The identity of a file, and its text.

ghost use Rattle.std.specs.Prelude.{◌≡◌, ◌++◌, ◌<◌, OnOk, true};
ghost use Rattle.std.specs.Fmt.{digit_glyph};
ghost use Rattle.std.specs.String.{string_bytes};
ghost use Rattle.binfarce_bytes.specs.Number.{bytes_at};
ghost use Rattle.binfarce_identity.specs.Identity.{identity_view};
ghost use Rattle.binfarce_identity.specs.Texts.{age_text, byte_digits, guid_text, hex, text_of, upper_at, uuid_text};

use binfarce_bytes::ByteOrder;
use binfarce_bytes::parser::number_at;
use std::alloc::AllocError;

/// What an identity is.
#[derive(Debug, Clone, Copy, PartialEq)]
pub enum Kind {
    /// The descriptor of the note of the type `NT_GNU_BUILD_ID` in an ELF file.
    BuildId,
    /// The 16 bytes of the load command `LC_UUID` of a Mach-O file.
    Uuid,
    /// The 16 bytes of the GUID and the 4 bytes of the age in the CodeView record of a PE file, as they are there.
    CodeView,
}

/// What says from which build a file is: files of one build have the same, its debug file too.
#[derive(Debug, PartialEq, Drop)]
pub struct Identity {
    /// What it is.
    pub kind: Kind,
    /// Its bytes, as the file has them.
    pub bytes: Vec<u8>,
}

impl Identity {
    /// Appends its text: a build ID's bytes in lower-case hexadecimal digits, as `readelf -n` prints them; a UUID in
    /// upper case with hyphens, as `dwarfdump --uuid` prints it; a GUID in upper case and then the age, without
    /// hyphens, as symbol servers name folders.
    ///
    /// # Errors
    ///
    /// `AllocError` if an allocation fails.
    pub fn push_text(&self, text: &mut String) -> Result<(), AllocError>
        ensures { OnOk result
            (string_bytes text.new ≡ string_bytes text.old ++ text_of (identity_view self.now)) }
    {
        match self.kind {
            Kind::BuildId => push_hex(text, &self.bytes, false),
            Kind::Uuid => push_uuid(text, &self.bytes),
            Kind::CodeView => {
                push_guid(text, &self.bytes)?;
                push_age(text, &self.bytes)
            }
        }
    }
}

#[tactic(auto, unfolding(crate::specs::Texts::uuid_text))]
fn push_uuid(text: &mut String, bytes: &[u8]) -> Result<(), AllocError>
    ensures { OnOk result (string_bytes text.new ≡ string_bytes text.old ++ uuid_text bytes.now) }
{
    push_at(text, bytes, 0, 4)?;
    text.push_str("-")?;
    push_at(text, bytes, 4, 2)?;
    text.push_str("-")?;
    push_at(text, bytes, 6, 2)?;
    text.push_str("-")?;
    push_at(text, bytes, 8, 2)?;
    text.push_str("-")?;
    push_at(text, bytes, 10, 6)
}

#[tactic(auto, unfolding(crate::specs::Texts::guid_text))]
fn push_guid(text: &mut String, bytes: &[u8]) -> Result<(), AllocError>
    ensures { OnOk result (string_bytes text.new ≡ string_bytes text.old ++ guid_text bytes.now) }
{
    push_at(text, bytes, 3, 1)?;
    push_at(text, bytes, 2, 1)?;
    push_at(text, bytes, 1, 1)?;
    push_at(text, bytes, 0, 1)?;
    push_at(text, bytes, 5, 1)?;
    push_at(text, bytes, 4, 1)?;
    push_at(text, bytes, 7, 1)?;
    push_at(text, bytes, 6, 1)?;
    push_at(text, bytes, 8, 8)
}

// The age of a CodeView record, which follows its GUID.
fn push_age(text: &mut String, bytes: &[u8]) -> Result<(), AllocError>
    ensures { OnOk result (string_bytes text.new ≡ string_bytes text.old ++ age_text bytes.now) }
{
    let Ok(age) = number_at::<u32>(bytes, 16, ByteOrder::LittleEndian) else {
        return Ok(());
    };
    write!(text, "{age:x}")
}

// So many bytes from an offset on, in upper case.
fn push_at(text: &mut String, bytes: &[u8], offset: usize, size: usize) -> Result<(), AllocError>
    ensures { OnOk result
        (string_bytes text.new ≡ string_bytes text.old ++ upper_at bytes.now offset size) }
{
    push_hex(text, part_of(bytes, offset, size), true)
}

// So many bytes from an offset on, or as many as there are.
fn part_of(bytes: &[u8], offset: usize, size: usize) -> &[u8]
    ensures { result.now ≡ bytes_at bytes.now offset size }
{
    let rest = &bytes[offset.min(bytes.len())..];
    &rest[..size.min(rest.len())]
}

fn push_hex(text: &mut String, bytes: &[u8], is_upper: bool) -> Result<(), AllocError>
    ensures { OnOk result (string_bytes text.new ≡ string_bytes text.old ++ hex is_upper bytes.now) }
{
    for byte in bytes {
        push_byte(text, *byte, is_upper)?;
    }
    Ok(())
}

fn push_byte(text: &mut String, byte: u8, is_upper: bool) -> Result<(), AllocError>
    ensures { OnOk result (string_bytes text.new ≡ string_bytes text.old ++ byte_digits is_upper byte) }
{
    text.push(digit(byte / 16, is_upper) as char)?;
    text.push(digit(byte % 16, is_upper) as char)
}

// The hexadecimal digit of a value.
fn digit(value: u8, is_upper: bool) -> u8
    requires { value < 16 }
    ensures { result ≡ digit_glyph is_upper value }
{
    if value < 10 {
        b'0' + value
    } else if is_upper {
        b'A' + (value - 10)
    } else {
        b'a' + (value - 10)
    }
}
