//! Rows as JSON objects (RFC 8259).

ghost use Rattle.std.specs.Prelude.{◌≡◌, ◌++◌, OnOk, encode_utf8_all};
ghost use Rattle.std.specs.Option.{option_map};
ghost use Rattle.std.specs.String.{string_bytes};
ghost use Rattle.binfarce_rows.specs.Columns.{address_text};
ghost use Rattle.binfarce_rows.specs.Json.{address_member, json_char, json_chars, json_text, number_member, object_start, text_member};

use binfarce_text::digits::hex_digit;
use std::alloc::AllocError;

/// How rows are written.
#[derive(Debug, Clone, Copy, PartialEq)]
pub enum Form<'a> {
    /// As lines.
    Lines,
    /// As JSON objects, a line each, with these names of the file, and of the section where one is selected.
    Objects(&'a str, &'a str),
}

/// Appends the beginning of an object: its brace, and the member `file`.
pub fn push_start(text: &mut String, file: &str) -> Result<(), AllocError>
    ensures { OnOk result (string_bytes text.new ≡ string_bytes text.old ++ object_start file.now) }
{
    text.push_str("{\"file\":")?;
    push_text(text, file)
}

/// Appends a member whose value is a text, or `null`, after a comma. The member's name is written as it is.
pub fn push_text_member(
    text: &mut String,
    name: &str,
    value: Option<&str>,
) -> Result<(), AllocError>
    ensures { OnOk result (string_bytes text.new
        ≡ string_bytes text.old ++ text_member name.now (option_map (λ t. t.now) value.entry)) }
{
    write!(text, ",\"{name}\":")?;
    match value {
        Some(value) => push_text(text, value),
        None => text.push_str("null"),
    }
}

/// Appends a member whose value is a number, after a comma. The member's name is written as it is.
pub fn push_number_member(text: &mut String, name: &str, value: u64) -> Result<(), AllocError>
    ensures { OnOk result (string_bytes text.new ≡ string_bytes text.old ++ number_member name.now value) }
{
    write!(text, ",\"{name}\":{value}")
}

/// Appends the member `address`, a text of `0x` and 16 hexadecimal digits, after a comma.
pub fn push_address_member(text: &mut String, address: u64) -> Result<(), AllocError>
    ensures { OnOk result (string_bytes text.new ≡ string_bytes text.old ++ address_member address) }
{
    text.push_str(",\"address\":\"0x")?;
    push_address(text, address)?;
    text.push_str("\"")?;
    Ok(())
}

#[tactic(auto, using(crate::proofs::Pads::address_padded))]
fn push_address(text: &mut String, address: u64) -> Result<(), AllocError>
    ensures { OnOk result (string_bytes text.new ≡ string_bytes text.old ++ address_text address) }
{
    write!(text, "{address:016x}")
}

// Appends a text in quotation marks. Within, quotation marks, reverse solidi and control characters are escaped.
fn push_text(text: &mut String, value: &str) -> Result<(), AllocError>
    ensures { OnOk result (string_bytes text.new ≡ string_bytes text.old ++ json_text value.now) }
{
    text.push_str("\"")?;
    push_chars(text, value)?;
    text.push_str("\"")
}

fn push_chars(text: &mut String, value: &str) -> Result<(), AllocError>
    ensures { OnOk result (string_bytes text.new ≡ string_bytes text.old ++ json_chars value.now) }
{
    for c in value.chars() {
        push_char(text, c)?;
    }
    Ok(())
}

fn push_char(text: &mut String, c: char) -> Result<(), AllocError>
    ensures { OnOk result (string_bytes text.new ≡ string_bytes text.old ++ encode_utf8_all (json_char c)) }
{
    match c {
        '"' => text.push_str("\\\""),
        '\\' => text.push_str("\\\\"),
        '\0'..='\x1f' => {
            text.push_str("\\u00")?;
            text.push(hex_digit(u64::from(c) / 16) as char)?;
            text.push(hex_digit(u64::from(c) % 16) as char)
        }
        _ => text.push(c),
    }
}
