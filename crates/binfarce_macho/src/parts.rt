//! The end of a file's load commands, whether a prefix of the file holds them, and where the file is loaded.

ghost use Rattle.std.specs.Prelude.{◌≡◌, ◌+◌, ◌<◌, ◌≤◌, length, nat_le, Some, None, MatchResult, if◌then◌else◌};
ghost use Rattle.std.specs.Option.{option_map};
ghost use Rattle.binfarce_bytes.specs.Refusal.{Gives, refusal_of};
ghost use Rattle.binfarce_macho.specs.Macho.{header_of, header_length, body_of, section_count, section_offset};
ghost use Rattle.binfarce_macho.specs.MachoParts.{holds_body, holds_commands, segment_name, segment_address, is_text_name, is_text_segment, load_address};
ghost use Rattle.binfarce_macho.specs.MachoViews.{header_view};
ghost use Rattle.binfarce_macho.specs.machine.RawMacho.{command_view};

use crate::commands::{COMMAND_HEAD, Command, LC_SEGMENT_64, LC_SYMTAB, command_at, commands};
use crate::header::{HEADER_LENGTH, MachoHeader};
use crate::sections::{SECTION_LENGTH, name_in};
use binfarce_bytes::parser::{Stream, UnexpectedEof, number_at, to_index};
use binfarce_bytes::{ByteOrder, ParseError};

/// Where the load commands end, as the header states (`sizeofcmds`).
pub fn commands_end(header: MachoHeader) -> u64
    ensures { result ≡ header_length + (header_view header).sizeofcmds }
{
    HEADER_LENGTH as u64 + u64::from(header.sizeofcmds)
}

/// Whether the load commands that this header states, with the fields that are read, lie in these bytes. A file that
/// begins with these bytes then has the same sections and the same symbol table, whatever follows.
pub fn holds_commands(file: &[u8], header: MachoHeader) -> bool
    requires { header_view header ≡ header_of file.now }
    ensures { result ≡ holds_commands file.now }
{
    let mut offset = HEADER_LENGTH;
    for _k in 0..header.ncmds {
        match command_at(file, offset) {
            Err(_) => return false,
            Ok(command) => {
                if command.size < COMMAND_HEAD {
                    return true;
                }
                if !holds_body(file, command) {
                    return false;
                }
                offset = to_index(offset as u64 + command.size as u64);
            }
        }
    }
    true
}

fn holds_body(bytes: &[u8], command: Command) -> bool
    requires { command.offset + 8 ≤ length bytes.now }
    ensures { result ≡ holds_body bytes.now (command_view command) }
{
    let body = command.offset + 8;
    match command.kind {
        LC_SEGMENT_64 => holds_sections(bytes, body),
        LC_SYMTAB => body + 16 <= bytes.len(),
        _ => true,
    }
}

// Whether all section structures of a segment command lie in the bytes.
fn holds_sections(bytes: &[u8], body: usize) -> bool
    requires { body ≤ length bytes.now }
    ensures { result ≡ nat_le (section_offset body (section_count bytes.now body)) (length bytes.now) }
{
    match number_at::<u32>(bytes, body + 56, ByteOrder::LittleEndian) {
        Err(_) => false,
        Ok(count) => {
            (body + 64) as u64 + u64::from(count) * SECTION_LENGTH as u64 <= bytes.len() as u64
        }
    }
}

/// Where a file with this header is loaded unless the loader slides it: the address of its first segment `__TEXT`.
/// `None` without one, as in an object file. `MalformedInput` for a bad command before it.
pub fn load_address(file: &[u8], header: MachoHeader) -> Result<Option<u64>, ParseError>
    requires { header_view header ≡ header_of file.now }
    ensures { Gives refusal_of (λ a. a) (load_address file.now) result }
{
    for item in commands(file, header) {
        let command = item?;
        match text_address(file, command) {
            None => {}
            Some(address) => return Ok(Some(address)),
        }
    }
    Ok(None)
}

// The address of the segment of a command, where it is named `__TEXT` and its name and address lie in the file.
fn text_address(bytes: &[u8], command: Command) -> Option<u64>
    ensures { result ≡ (if is_text_segment bytes.now (command_view command) then Some
        (segment_address bytes.now (body_of (command_view command))) else None) }
{
    if command.kind != LC_SEGMENT_64 {
        return None;
    }
    match text_place(bytes, command) {
        Err(_) => None,
        Ok(address) => address,
    }
}

// The same, of a command of a segment; refused if its name and address don't lie in the file.
fn text_place(bytes: &[u8], command: Command) -> Result<Option<u64>, UnexpectedEof>
    ensures { let body = body_of (command_view command) in MatchResult result
        (λ address. (body + 24 ≤ length bytes.now)
        × (address ≡ (if is_text_name (segment_name bytes.now body) then Some (segment_address bytes.now body)
        else None))) (λ _. length bytes.now < body + 24) }
{
    let body = command.offset.checked_add(8).ok_or(UnexpectedEof {})?;
    let mut s = Stream::new_at(bytes, body, ByteOrder::LittleEndian)?;
    let name = s.read_bytes(16)?;
    let address = s.read()?;
    if is_text_name(name_in(name)) {
        Ok(Some(address))
    } else {
        Ok(None)
    }
}

fn is_text_name(name: Option<&str>) -> bool
    ensures { result ≡ is_text_name (option_map (λ t. t.now) name.entry) }
{
    match name {
        None => false,
        Some(name) => name == "__TEXT",
    }
}
