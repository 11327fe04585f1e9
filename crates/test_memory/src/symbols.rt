//! Lists of symbols that aren't empty: the whole list, or `OutOfMemory`.

use crate::readers::{Symbols, symbols};
use binfarce::ParseError;
use binfarce::demangle::SymbolData;
use binfarce_image::image::ImageError;
use std::alloc::{AllocError, Global};
use test_image_samples::file_of;
use test_image_samples::tally::{Row, Tally};
use test_samples::elf::Layout;
use test_samples::files::{FILES, File};

// A symbol's complete and trimmed text, its address and its size.
type Symbol = (&'static str, &'static str, u64, u64);

const ELF: &[Symbol] = &[("foo::bar", "foo", 0x1000, 16)];

const MACHO: &[Symbol] = &[
    ("a", "a", 0x1000, 64),
    ("b", "b", 0x1000, 64),
    ("c", "c", 0x1040, 192),
];

const PE: &[Symbol] = &[
    ("b", "b", 0, 64),
    ("d", "d", 0, 64),
    ("c", "c", 0x40, 192),
    ("e", "e", 0x100, 128),
    ("a", "a", 0x180, 0),
];

// A name of each kind, and the symbols of an ELF file with functions of these names, each of 16 bytes from 0x1000 on.
const NAMES: [&str; 3] = ["_RNvC6_123foo3bar", "_ZN3foo3barE", "a"];

const NAMED: &[Symbol] = &[
    ("123foo[0]::bar", "123foo::bar", 0x1000, 16),
    ("foo::bar", "foo", 0x1010, 16),
    ("a", "a", 0x1020, 16),
];

// The symbols of a sample, and the size of the section that has them.
fn symbols_of(file: File) -> (&'static [Symbol], u64) {
    match file {
        File::Elf(_) => (ELF, 32),
        File::Macho => (MACHO, 256),
        File::Pe => (PE, 256),
    }
}

fn is_symbol(found: &SymbolData, symbol: &Symbol) -> bool {
    let (complete, trimmed, address, size) = *symbol;
    found.name.complete.as_str() == complete
        && found.name.trimmed.as_str() == trimmed
        && found.address == address
        && found.size == size
}

fn are_symbols(found: &[SymbolData], symbols: &[Symbol]) -> bool {
    for (found, symbol) in found.iter().zip(symbols) {
        if !is_symbol(found, symbol) {
            return false;
        }
    }
    found.len() == symbols.len()
}

fn has_symbols(answer: Symbols, symbols: &[Symbol], size: u64) -> Row {
    match answer {
        Err(ParseError::OutOfMemory) => Err(AllocError),
        Err(_) => Ok(false),
        Ok((found, section_size)) => {
            Ok(are_symbols(found.as_slice(), symbols) && section_size == size)
        }
    }
}

// A file with several names.
fn has_names(alloc: Global) -> Row {
    match file_of(alloc, &NAMES) {
        Err(ImageError::OutOfMemory) => Err(AllocError),
        Err(_) => Ok(false),
        Ok(file) => {
            let format = File::Elf(Layout::Elf64Little);
            has_symbols(symbols(alloc, format, &file, ".text"), NAMED, 32)
        }
    }
}

pub(crate) fn add_symbols(alloc: Global, tally: &mut Tally) {
    for file in FILES {
        let (expected, size) = symbols_of(file);
        let found = symbols(alloc, file, file.bytes(), ".text");
        tally.add(file.name(), has_symbols(found, expected, size));
    }
    tally.add("a name of each kind", has_names(alloc));
}
