//! The format of a file, and its header.

ghost use Rattle.std.specs.Prelude.{◌≡◌};
ghost use Rattle.binfarce.specs.Format.{format_of};
ghost use Rattle.binfarce_c.specs.Headers.{GivesElfHeader, GivesHeader, format_number, no_header, order_number};

use crate::status::{OK, UNKNOWN_FORMAT, status_of};
use binfarce::{ByteOrder, Format, ParseError, detect_format};
use binfarce_elf::class::Class;
use binfarce_elf::header::parse_header;

/// The file header of an ELF file of either class: `struct binfarce_elf_header`.
#[repr(C)]
#[derive(Clone, Copy)]
pub struct ElfHeader {
    /// `e_type`.
    pub elf_type: u16,
    /// `e_machine`.
    pub machine: u16,
    /// `e_version`.
    pub version: u32,
    /// `e_entry`.
    pub entry: u64,
    /// `e_phoff`.
    pub phoff: u64,
    /// `e_shoff`.
    pub shoff: u64,
    /// `e_flags`.
    pub flags: u32,
    /// `e_ehsize`.
    pub ehsize: u16,
    /// `e_phentsize`.
    pub phentsize: u16,
    /// `e_phnum`.
    pub phnum: u16,
    /// `e_shentsize`.
    pub shentsize: u16,
    /// `e_shnum`.
    pub shnum: u16,
    /// `e_shstrndx`.
    pub shstrndx: u16,
}

// What is given in place of a header if there is none.
const NO_HEADER: ElfHeader = ElfHeader {
    elf_type: 0,
    machine: 0,
    version: 0,
    entry: 0,
    phoff: 0,
    shoff: 0,
    flags: 0,
    ehsize: 0,
    phentsize: 0,
    phnum: 0,
    shentsize: 0,
    shnum: 0,
    shstrndx: 0,
};

/// The format that a file's first bytes name: 0 for none, and then ELF of 32 bits in little-endian and in big-endian
/// order, of 64 bits the same, Mach-O, PE. See `binfarce.h`.
#[unsafe(no_mangle)]
pub extern "C" fn binfarce_detect_format(file: &[u8]) -> u32
    ensures { result ≡ format_number (format_of file.now) }
{
    match detect_format(file) {
        Format::Unknown => 0,
        Format::Elf32 { byte_order } => 1 + of_order(byte_order),
        Format::Elf64 { byte_order } => 3 + of_order(byte_order),
        Format::Macho => 5,
        Format::PE => 6,
    }
}

fn of_order(byte_order: ByteOrder) -> u32
    ensures { result ≡ order_number byte_order }
{
    u32::from(byte_order == ByteOrder::BigEndian)
}

/// The file header of an ELF file. See `binfarce.h`.
#[unsafe(no_mangle)]
#[tactic(auto, unfolding(crate::specs::Headers::GivesElfHeader))]
pub extern "C" fn binfarce_elf_header(file: &[u8], out: &mut ElfHeader) -> u32
    ensures { GivesElfHeader (format_of file.now) file.now out.new result }
{
    match detect_format(file) {
        Format::Elf32 { byte_order } => elf_header::<u32>(file, byte_order, out),
        Format::Elf64 { byte_order } => elf_header::<u64>(file, byte_order, out),
        Format::Macho | Format::PE | Format::Unknown => {
            *out = NO_HEADER;
            UNKNOWN_FORMAT
        }
    }
}

// The file header of an ELF file of this class, widened.
fn elf_header<C: Class>(file: &[u8], byte_order: ByteOrder, out: &mut ElfHeader) -> u32
    ensures { GivesHeader C.table byte_order file.now out.new result }
{
    let Ok(header) = parse_header::<C>(file, byte_order) else {
        *out = NO_HEADER;
        return status_of(ParseError::UnexpectedEof);
    };
    *out = ElfHeader {
        elf_type: header.elf_type,
        machine: header.machine,
        version: header.version,
        entry: header.entry.widened(),
        phoff: header.phoff.widened(),
        shoff: header.shoff.widened(),
        flags: header.flags,
        ehsize: header.ehsize,
        phentsize: header.phentsize,
        phnum: header.phnum,
        shentsize: header.shentsize,
        shnum: header.shnum,
        shstrndx: header.shstrndx,
    };
    OK
}
