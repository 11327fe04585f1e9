//! Calls that don't allocate: these rows make no allocation at all.

use crate::expected::is_shown;
use crate::{streams, words};
use binfarce::demangle::{Kind, demangle};
use binfarce::{ByteOrder, Format, ParseError, detect_format, elf32, elf64, macho, pe};
use binfarce_tools::list::{Out, Sink};
use std::io;
use test_image_samples::tally::Tally;
use test_samples::expected::Expected;
use test_samples::files::{FILES, File};

fn has_header_32(header: elf32::Elf32Header) -> bool {
    header.elf_type == 1
        && header.machine == 0
        && header.version == 1
        && header.entry == 0
        && header.phoff == 0
        && header.shoff == 215
        && header.flags == 0
        && header.ehsize == 52
        && header.phentsize == 0
        && header.phnum == 0
        && header.shentsize == 40
        && header.shnum == 5
        && header.shstrndx == 4
}

fn has_header_64(header: elf64::Elf64Header) -> bool {
    header.elf_type == 1
        && header.machine == 0
        && header.version == 1
        && header.entry == 0
        && header.phoff == 0
        && header.shoff == 267
        && header.flags == 0
        && header.ehsize == 64
        && header.phentsize == 0
        && header.phnum == 0
        && header.shentsize == 64
        && header.shnum == 5
        && header.shstrndx == 4
}

fn is_elf32(file: &[u8], byte_order: ByteOrder) -> Result<bool, ParseError> {
    let elf = elf32::parse(file, byte_order)?;
    let (mut functions, size) = elf.functions(".text")?;
    let has_function = match functions.next() {
        None => false,
        Some(f) => f.name == "_ZN3foo3barE" && f.address == 4096 && f.size == 16,
    };
    let has_table = match elf.find_section(|s| s.entries() > 0)? {
        None => false,
        Some(table) => table.name(&elf) == Some(".symtab") && table.range()? == (84..164),
    };
    let is_missing = elf.section_with_name("nope")?.is_none();
    let is_format = detect_format(file) == Format::Elf32 { byte_order };
    Ok(
        has_function
            && functions.next().is_none()
            && size == 32
            && has_table
            && is_missing
            && is_format
            && has_header_32(elf.header()),
    )
}

fn is_elf64(file: &[u8], byte_order: ByteOrder) -> Result<bool, ParseError> {
    let elf = elf64::parse(file, byte_order)?;
    let (mut functions, size) = elf.functions(".text")?;
    let has_function = match functions.next() {
        None => false,
        Some(f) => f.name == "_ZN3foo3barE" && f.address == 4096 && f.size == 16,
    };
    let has_table = match elf.find_section(|s| s.entries() > 0)? {
        None => false,
        Some(table) => table.name(&elf) == Some(".symtab") && table.range()? == (96..216),
    };
    let is_missing = elf.section_with_name("nope")?.is_none();
    let is_format = detect_format(file) == Format::Elf64 { byte_order };
    Ok(
        has_function
            && functions.next().is_none()
            && size == 32
            && has_table
            && is_missing
            && is_format
            && has_header_64(elf.header()),
    )
}

// The fields of the headers of Mach-O and PE can't be read, but shown.
fn is_macho(file: &[u8]) -> Result<bool, ParseError> {
    const HEADER: &str =
        "MachoHeader { cputype: 0, cpusubtype: 0, filetype: 0, ncmds: 2, sizeofcmds: 0, flags: 0 }";
    let macho = macho::parse(file)?;
    let is_text = match macho.section_with_name("__TEXT", "__text")? {
        None => false,
        Some(section) => section.range()? == (0..256),
    };
    let is_found = macho.find_section(|_| true)?.is_some();
    Ok(is_text && is_found && is_shown(&macho.header(), HEADER))
}

fn is_pe(file: &[u8]) -> Result<bool, ParseError> {
    const HEADER: &str = "PeHeader { machine: 0, number_of_sections: 1, time_date_stamp: 0, \
        pointer_to_symbol_table: 128, number_of_symbols: 5, size_of_optional_header: 0, characteristics: 0 }";
    let pe = pe::parse(file)?;
    let is_text = match pe.section_with_name(".text")? {
        None => false,
        Some(section) => section.range()? == (0..256),
    };
    let is_found = pe.find_section(|_| true)?.is_some();
    Ok(is_text && is_found && is_shown(&pe.header(), HEADER))
}

fn is_read(file: File) -> Result<bool, ParseError> {
    let bytes = file.bytes();
    match file {
        File::Elf(layout) if layout.is_64() => is_elf64(bytes, layout.order()),
        File::Elf(layout) => is_elf32(bytes, layout.order()),
        File::Macho => is_macho(bytes),
        File::Pe => is_pe(bytes),
    }
}

fn add_readers(tally: &mut Tally) {
    for file in FILES {
        tally.add(file.name(), Ok(is_read(file) == Ok(true)));
    }
}

// A writer that takes nothing.
#[derive(Drop)]
struct Full;

impl io::Write for Full {
    fn write(&mut self, _bytes: &[u8]) -> io::Result<usize> {
        Ok(0)
    }

    fn flush(&mut self) -> io::Result<()> {
        Ok(())
    }
}

fn is_taken() -> bool {
    let mut out = Out::new(Expected::new(b"ab"));
    let is_taken = !out.failed() && out.write(b"ab") == Some(2) && !out.failed();
    is_taken && out.into_inner().is_whole()
}

fn has_failed() -> bool {
    let mut out = Out::new(Full);
    !out.failed() && out.write(b"ab").is_none() && out.failed()
}

// Names, how they are mangled, and the part that is kept: what follows the prefix, without the `.llvm.` suffix, and all
// of a name that isn't mangled. The text of the last would take 98,304 steps, which only printing finds out.
const MANGLED: [(&str, Kind, &str); 9] = [
    ("_ZN3foo3barE", Kind::Legacy, "3foo3barE"),
    ("__ZN3foo3barE.llvm.0A@", Kind::Legacy, "3foo3barE"),
    ("ZN3foo3barE.cold", Kind::Legacy, "3foo3barE.cold"),
    ("_RNvC6_123foo3bar", Kind::V0, "NvC6_123foo3bar"),
    ("__RNvC1a1b.llvm.7", Kind::V0, "NvC1a1b"),
    ("_RNvC1a1b.llvm.7.cold", Kind::V0, "NvC1a1b.llvm.7.cold"),
    ("foo.llvm.7", Kind::Unknown, "foo.llvm.7"),
    ("_RNvC1a", Kind::Unknown, "_RNvC1a"),
    (
        "_RMC0TTTTTTTTTTTTTTTpBh_EBg_EBf_EBe_EBd_EBc_EBb_EBa_EB9_EB8_EB7_EB6_EB5_EB4_EB3_E",
        Kind::V0,
        "MC0TTTTTTTTTTTTTTTpBh_EBg_EBf_EBe_EBd_EBc_EBb_EBa_EB9_EB8_EB7_EB6_EB5_EB4_EB3_E",
    ),
];

fn is_kept(name: &str, kind: Kind, part: &str) -> bool {
    let demangled = demangle(name);
    demangled.kind() == kind && demangled.part() == part
}

pub(crate) fn add_calls(tally: &mut Tally) {
    for (name, kind, part) in MANGLED {
        tally.add(name, Ok(is_kept(name, kind, part)));
    }
    add_readers(tally);
    tally.add("a sink that takes bytes", Ok(is_taken()));
    tally.add("a sink that takes none", Ok(has_failed()));
    words::add_errors(tally);
    streams::add_streams(tally);
}
