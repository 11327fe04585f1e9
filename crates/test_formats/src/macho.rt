//! What the reader of Mach-O finds in a file.

use crate::symbols::{address_of, functions_text, push_found, symbols_text};
use binfarce::macho::{Macho, Section, parse};
use binfarce::{ParseError, symbol_at};
use std::alloc::{AllocError, Global};

/// The answer of the reader.
pub fn answer(alloc: Global, what: &str, rest: &str, file: &[u8]) -> Result<String, ParseError> {
    let macho = parse(file)?;
    match what {
        "header" => Ok(format!(in alloc; "{:?}", macho.header())?),
        "names" | "symbols" => {
            let (symbols, size) = macho.symbols(alloc)?;
            Ok(symbols_text(alloc, what, &symbols, size)?)
        }
        "functions" => functions_answer(alloc, &macho, rest),
        "sections" => Ok(sections_answer(alloc, &macho)?),
        "bytes" => bytes_answer(alloc, &macho, rest, file),
        _ => section_answer(alloc, &macho, rest),
    }
}

fn functions_answer(
    alloc: Global,
    macho: &Macho<'_>,
    addresses: &str,
) -> Result<String, ParseError> {
    let (functions, size) = macho.functions(alloc)?;
    let mut text = functions_text(alloc, &functions, size)?;
    for address in addresses.split(' ') {
        push_found(&mut text, symbol_at(&functions, address_of(address)))?;
    }
    Ok(text)
}

fn sections_answer(alloc: Global, macho: &Macho<'_>) -> Result<String, AllocError> {
    let mut text = String::new(alloc);
    for section in macho.sections() {
        match section {
            Ok(section) => push(&mut text, macho, section)?,
            Err(error) => writeln!(text, "{error}")?,
        }
    }
    Ok(text)
}

fn bytes_answer(
    alloc: Global,
    macho: &Macho<'_>,
    place: &str,
    file: &[u8],
) -> Result<String, ParseError> {
    match found(macho, place)? {
        Some(section) => {
            let (bytes, is_file) = (macho.section_bytes(&section), macho.data() == file);
            Ok(format!(in alloc; "{bytes:?} {is_file}")?)
        }
        None => Ok(String::from_str(alloc, "none")?),
    }
}

fn section_answer(alloc: Global, macho: &Macho<'_>, place: &str) -> Result<String, ParseError> {
    let mut text = String::new(alloc);
    match found(macho, place)? {
        Some(section) => push(&mut text, macho, section)?,
        None => text.push_str("none")?,
    }
    Ok(text)
}

fn push(text: &mut String, macho: &Macho<'_>, section: Section<'_>) -> Result<(), AllocError> {
    let bytes = macho.section_bytes(&section).map(|bytes| bytes.len());
    writeln!(
        text,
        "{} {} {:x} {} {} {:?} {bytes:?}",
        section.segment_name(),
        section.name(),
        section.address(),
        section.offset(),
        section.size(),
        section.range()
    )
}

fn found<'a>(macho: &Macho<'a>, which: &str) -> Result<Option<Section<'a>>, ParseError> {
    let is_first = which == "first";
    match which.split_once(',') {
        Some((segment, name)) => macho.section_with_name(segment, name),
        None => macho.find_section(move |_| is_first),
    }
}
