//! The format of a file, by its first bytes.

ghost use Rattle.std.specs.Prelude.{◌≡◌};
ghost use Rattle.binfarce_bytes.specs.Format.{format_of, elf_format_of, begins_macho};

mod laws;

use crate::ByteOrder;

/// The format that a file's first bytes name.
#[derive(PartialEq, Eq, Hash, Debug, Drop)]
pub enum Format {
    /// ELF of 32 bits (`ELFCLASS32`), in this byte order (`EI_DATA`): for `elf32::parse`.
    Elf32 {
        /// The order of the numbers' bytes.
        byte_order: ByteOrder,
    },
    /// ELF of 64 bits (`ELFCLASS64`), in this byte order (`EI_DATA`): for `elf64::parse`.
    Elf64 {
        /// The order of the numbers' bytes.
        byte_order: ByteOrder,
    },
    /// Mach-O of any kind. `macho::parse` reads each as a 64-bit little-endian file.
    Macho,
    /// A file that begins with the MS-DOS stub of a PE file: for `pe::parse`.
    PE,
    /// None of these.
    Unknown,
}

/// Names the format of a file by its first 8 bytes: ELF's `7F 45 4C 46` with its class and byte order (gABI, "ELF
/// Identification"), PE's `4D 5A`, the five magic numbers of Mach-O. A file of fewer than 8 bytes is `Unknown`, and so
/// is an ELF file of another class or order. Nothing is allocated.
///
/// The readers themselves don't check magic numbers.
#[tactic(auto, unfolding(crate::specs::Format::format_of))]
pub fn detect_format(file: &[u8]) -> Format
    ensures { result ≡ format_of file.now }
{
    if file.len() < 8 {
        return Format::Unknown;
    }
    if file.starts_with(b"\x7FELF") {
        return elf_format(file[4], file[5]);
    }
    if file.starts_with(b"MZ") {
        return Format::PE;
    }
    if begins_macho(file) {
        return Format::Macho;
    }
    Format::Unknown
}

fn begins_macho(file: &[u8]) -> bool
    ensures { result ≡ begins_macho file.now }
{
    file.starts_with(b"\xCA\xFE\xBA\xBE")
        || file.starts_with(b"\xFE\xED\xFA\xCE")
        || file.starts_with(b"\xFE\xED\xFA\xCF")
        || file.starts_with(b"\xCE\xFA\xED\xFE")
        || file.starts_with(b"\xCF\xFA\xED\xFE")
}

// By the bytes `EI_CLASS` and `EI_DATA`.
fn elf_format(class: u8, order: u8) -> Format
    ensures { result ≡ elf_format_of class order }
{
    let byte_order = match order {
        1 => ByteOrder::LittleEndian,
        2 => ByteOrder::BigEndian,
        _ => return Format::Unknown,
    };
    match class {
        1 => Format::Elf32 { byte_order },
        2 => Format::Elf64 { byte_order },
        _ => Format::Unknown,
    }
}
