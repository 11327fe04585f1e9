//! Files that are recognized by their first bytes, and that no reader reads.
#![tactic(auto)]

ghost use Rattle.std.specs.Prelude.{◌≡◌, ◌≤◌, length, nat_eq, Some};
ghost use Rattle.std.specs.List.{list_all};
ghost use Rattle.binfarce_foreign.specs.Foreign.{core_of, elf32_of, elf64_of, is_coff, is_dos, is_text, macho_of, mz_of, named_by, other_of, packed_of};

use binfarce_bytes::ByteOrder;
use binfarce_bytes::format::{Format, detect_format};
use binfarce_bytes::parser::{number_at, to_index};
use std::fmt;

/// What a file is that no reader reads.
#[derive(Debug, Clone, Copy, PartialEq)]
pub enum Foreign {
    /// A universal Mach-O file.
    Universal,
    /// A Java class file.
    JavaClass,
    /// A Mach-O file of 32 bits.
    Macho32,
    /// A big-endian Mach-O file of 64 bits.
    MachoBigEndian,
    /// An archive.
    Archive,
    /// A thin archive.
    ThinArchive,
    /// A COFF object file.
    Coff,
    /// A file of debug symbols of MSVC.
    Pdb,
    /// A WebAssembly module.
    Wasm,
    /// LLVM bitcode.
    Bitcode,
    /// A script.
    Script,
    /// A text.
    Text,
    /// A file of no bytes.
    Empty,
    /// An ELF file whose number of sections isn't in its header.
    ManySections,
    /// An ELF core file without sections.
    Core,
    /// A DOS program.
    Dos,
    /// A program of 16-bit Windows or OS/2.
    Ne,
    /// A program of OS/2, or a driver of 32-bit Windows before NT.
    Le,
    /// A file that gzip made.
    Gzip,
    /// One that xz made.
    Xz,
    /// One that zstd made.
    Zstd,
}

impl fmt::Display for Foreign {
    ghost use Rattle.binfarce_foreign.specs.Foreign.{foreign_words};

    ghost output = { λ it. Some (foreign_words it) };

    fn fmt<W: fmt::Write>(&self, f: &mut fmt::Formatter<W>) -> fmt::Result {
        match self {
            Foreign::Universal => write!(
                f,
                "a universal Mach-O file; `lipo -thin ARCHITECTURE FILE` extracts a part"
            ),
            Foreign::JavaClass => write!(f, "a Java class file; `javap -v FILE` shows it"),
            Foreign::Macho32 => write!(f, "a Mach-O file of 32 bits; those of 64 are read"),
            Foreign::MachoBigEndian => write!(
                f,
                "a big-endian Mach-O file; little-endian ones are read"
            ),
            Foreign::Archive => write!(f, "an archive; `ar x FILE` extracts its members"),
            Foreign::ThinArchive => write!(
                f,
                "a thin archive; its members, which `ar t FILE` lists, are files of their own"
            ),
            Foreign::Coff => write!(
                f,
                "a COFF object file; the PE file that it is linked into is read"
            ),
            Foreign::Pdb => write!(
                f,
                "a PDB file; `llvm-pdbutil dump --publics FILE` shows its symbols"
            ),
            Foreign::Wasm => write!(f, "a WebAssembly module; `wasm-objdump -x FILE` shows it"),
            Foreign::Bitcode => write!(f, "LLVM bitcode; the file that it is linked into is read"),
            Foreign::Script => write!(f, "a script; its first line names the program that runs it"),
            Foreign::Text => write!(
                f,
                "a text; `binfarce filter <FILE` shows it with readable names"
            ),
            Foreign::Empty => write!(f, "an empty file"),
            Foreign::ManySections => write!(
                f,
                "an ELF file of 65,280 sections or more; `readelf -SW FILE` lists them"
            ),
            Foreign::Core => write!(
                f,
                "a core file; the program that it is of, which `file FILE` names, has the symbols"
            ),
            Foreign::Dos => write!(f, "a DOS program; PE files are read"),
            Foreign::Ne => write!(
                f,
                "an NE file, of 16-bit Windows or OS/2; PE files are read"
            ),
            Foreign::Le => write!(
                f,
                "an LE or LX file, of OS/2 or Windows 9x; PE files are read"
            ),
            Foreign::Gzip => write!(f, "a gzip file; `gzip -d <FILE` writes what it holds"),
            Foreign::Xz => write!(f, "an xz file; `xz -d <FILE` writes what it holds"),
            Foreign::Zstd => write!(f, "a Zstandard file; `zstd -d <FILE` writes what it holds"),
        }
    }
}

/// How many of a file's first bytes are looked at.
pub const FIRST_LENGTH: usize = 512;

/// What the first bytes of a file say that no reader reads: the first `FIRST_LENGTH`, or all of a shorter file.
#[tactic(auto, unfolding(crate::specs::Foreign::named_by))]
pub fn named_by(first: &[u8]) -> Option<Foreign>
    ensures { result ≡ named_by first.now }
{
    match detect_format(first) {
        Format::Macho => macho_of(first),
        Format::Unknown => other_of(first),
        Format::Elf32 { byte_order } => elf32_of(first, byte_order),
        Format::Elf64 { byte_order } => elf64_of(first, byte_order),
        Format::PE => mz_of(first),
    }
}

// The kind of an ELF file of 32 bits without a section header table, or without the number of sections in its header.
fn elf32_of(first: &[u8], byte_order: ByteOrder) -> Option<Foreign>
    ensures { result ≡ elf32_of byte_order first.now }
{
    if first.len() < 52 {
        None
    } else if is_zero(&first[32..36]) {
        core_of(first, byte_order)
    } else if is_zero(&first[48..50]) {
        Some(Foreign::ManySections)
    } else {
        None
    }
}

// The same of one of 64 bits.
fn elf64_of(first: &[u8], byte_order: ByteOrder) -> Option<Foreign>
    ensures { result ≡ elf64_of byte_order first.now }
{
    if first.len() < 64 {
        None
    } else if is_zero(&first[40..48]) {
        core_of(first, byte_order)
    } else if is_zero(&first[60..62]) {
        Some(Foreign::ManySections)
    } else {
        None
    }
}

// A core file, by the type in an ELF header.
fn core_of(first: &[u8], byte_order: ByteOrder) -> Option<Foreign>
    requires { 18 ≤ length first.now }
    ensures { result ≡ core_of byte_order first.now }
{
    const ET_CORE: u16 = 4;
    match number_at::<u16>(first, 16, byte_order) {
        Ok(ET_CORE) => Some(Foreign::Core),
        _ => None,
    }
}

// The kind of a file that begins with a DOS program, by the header behind it, if the first bytes have that.
fn mz_of(first: &[u8]) -> Option<Foreign>
    ensures { result ≡ mz_of first.now }
{
    let at = match number_at::<u32>(first, 0x3c, ByteOrder::LittleEndian) {
        Ok(at) => u64::from(at),
        Err(_) => return None,
    };
    if at + 2 > first.len() as u64 {
        return None;
    }
    let header = &first[to_index(at)..];
    if header.starts_with(b"PE") {
        None
    } else if header.starts_with(b"NE") {
        Some(Foreign::Ne)
    } else if header.starts_with(b"LE") || header.starts_with(b"LX") {
        Some(Foreign::Le)
    } else if is_dos(first) {
        Some(Foreign::Dos)
    } else {
        None
    }
}

// Whether a DOS program has its relocation table in the first 64 bytes, and so no offset of another header there.
fn is_dos(first: &[u8]) -> bool
    requires { 64 ≤ length first.now }
    ensures { result ≡ is_dos first.now }
{
    match number_at::<u16>(first, 0x18, ByteOrder::LittleEndian) {
        Ok(table) => (0x1c..0x40).contains(&table),
        Err(_) => false,
    }
}

// Whether these bytes are a number that is 0.
fn is_zero(bytes: &[u8]) -> bool
    ensures { result ≡ list_all (nat_eq 0) bytes.now }
{
    bytes.iter().all(|byte| *byte == 0)
}

// The kind of a Mach-O file that isn't of 64 bits and little-endian. With the magic number of a universal file a Java
// class file begins too; its version, at least 45, follows.
fn macho_of(first: &[u8]) -> Option<Foreign>
    ensures { result ≡ macho_of first.now }
{
    if first.starts_with(b"\xcf\xfa\xed\xfe") {
        return None;
    }
    if first.starts_with(b"\xfe\xed\xfa\xcf") {
        return Some(Foreign::MachoBigEndian);
    }
    if !first.starts_with(b"\xca\xfe\xba\xbe") {
        return Some(Foreign::Macho32);
    }
    if first.starts_with(b"\xca\xfe\xba\xbe\0\0\0") && first.len() > 7 && first[7] < 45 {
        return Some(Foreign::Universal);
    }
    Some(Foreign::JavaClass)
}

// What a file of no known format is.
fn other_of(first: &[u8]) -> Option<Foreign>
    ensures { result ≡ other_of first.now }
{
    if first.is_empty() {
        return Some(Foreign::Empty);
    }
    if first.starts_with(b"!<arch>\n") {
        return Some(Foreign::Archive);
    }
    if first.starts_with(b"!<thin>\n") {
        return Some(Foreign::ThinArchive);
    }
    if first.starts_with(b"\xca\xfe\xba\xbf") {
        return Some(Foreign::Universal);
    }
    if first.starts_with(b"Microsoft C/C++ MSF 7.00") {
        return Some(Foreign::Pdb);
    }
    if first.starts_with(b"\0asm") {
        return Some(Foreign::Wasm);
    }
    if first.starts_with(b"BC\xc0\xde") || first.starts_with(b"\xde\xc0\x17\x0b") {
        return Some(Foreign::Bitcode);
    }
    if let Some(packed) = packed_of(first) {
        return Some(packed);
    }
    if is_coff(first) {
        return Some(Foreign::Coff);
    }
    if first.starts_with(b"#!") {
        return Some(Foreign::Script);
    }
    if is_text(first) {
        return Some(Foreign::Text);
    }
    None
}

// A compressed file.
fn packed_of(first: &[u8]) -> Option<Foreign>
    ensures { result ≡ packed_of first.now }
{
    if first.starts_with(b"\x1f\x8b") {
        Some(Foreign::Gzip)
    } else if first.starts_with(b"\xfd7zXZ\0") {
        Some(Foreign::Xz)
    } else if first.starts_with(b"\x28\xb5\x2f\xfd") {
        Some(Foreign::Zstd)
    } else {
        None
    }
}

// Whether a COFF file header of an object is there: of a known machine, and without an optional header.
fn is_coff(first: &[u8]) -> bool
    ensures { result ≡ is_coff first.now }
{
    let is_machine = first.starts_with(b"\x64\x86")
        || first.starts_with(b"\x4c\x01")
        || first.starts_with(b"\x64\xaa")
        || first.starts_with(b"\xc0\x01")
        || first.starts_with(b"\xc4\x01");
    first.len() >= 20 && is_machine && first[16] == 0 && first[17] == 0
}

// Whether all bytes are printable ASCII or white space.
fn is_text(first: &[u8]) -> bool
    ensures { result ≡ is_text first.now }
{
    first.iter().all(|byte| matches!(*byte, b'\t' | b'\n' | b'\x0c' | b'\r' | b' '..=b'~'))
}
