//! The file header of either class (gABI, "ELF Header").

ghost use Rattle.std.specs.Prelude.{◌≡◌, ◌<◌, ◌≤◌, length, MatchResult};
ghost use Rattle.binfarce_elf.specs.Elf.{header_of};
ghost use Rattle.binfarce_elf.specs.ElfViews.{header_view};

use crate::class::{Class, Half, Word};
use binfarce_bytes::ByteOrder;
use binfarce_bytes::parser::{UnexpectedEof, number_at};
use std::fmt;

/// The file header (gABI, "ELF Header"), without its identification.
#[derive(Clone, Copy)]
pub struct Header<C> {
    /// The file's type (`e_type`): 1 relocatable, 2 executable, 3 shared object, 4 core.
    pub elf_type: Half,
    /// The architecture (`e_machine`).
    pub machine: Half,
    /// The version of the format (`e_version`).
    pub version: Word,
    /// The address where the program begins (`e_entry`); 0 for none.
    pub entry: C,
    /// The offset of the program header table in the file, in bytes (`e_phoff`); 0 for none.
    pub phoff: C,
    /// The offset of the section header table in the file, in bytes (`e_shoff`); 0 for none.
    pub shoff: C,
    /// Flags of the architecture (`e_flags`).
    pub flags: Word,
    /// The size of the file header in bytes, as the file says (`e_ehsize`).
    pub ehsize: Half,
    /// The size of a program header in bytes, as the file says (`e_phentsize`).
    pub phentsize: Half,
    /// How many program headers there are (`e_phnum`).
    pub phnum: Half,
    /// The size of a section header in bytes, as the file says (`e_shentsize`); the readers take the class's own.
    pub shentsize: Half,
    /// How many section headers there are (`e_shnum`).
    pub shnum: Half,
    /// The index of the section that holds the section names (`e_shstrndx`).
    pub shstrndx: Half,
}

impl<C: Class + fmt::Debug> fmt::Debug for Header<C> {
    fn fmt<W: fmt::Write>(&self, f: &mut fmt::Formatter<W>) -> fmt::Result {
        f.debug_struct(C::HEADER)
            .field("elf_type", &self.elf_type)
            .field("machine", &self.machine)
            .field("version", &self.version)
            .field("entry", &self.entry)
            .field("phoff", &self.phoff)
            .field("shoff", &self.shoff)
            .field("flags", &self.flags)
            .field("ehsize", &self.ehsize)
            .field("phentsize", &self.phentsize)
            .field("phnum", &self.phnum)
            .field("shentsize", &self.shentsize)
            .field("shnum", &self.shnum)
            .field("shstrndx", &self.shstrndx)
            .finish()
    }
}

/// The file header in this byte order. Refused if it is truncated; its magic number isn't checked.
pub fn parse_header<C: Class>(
    file: &[u8],
    byte_order: ByteOrder,
) -> Result<Header<C>, UnexpectedEof>
    ensures { MatchResult result
        (λ h. (C.table.header_length ≤ length file.now)
        × (header_view C.number_of h ≡ header_of C.table byte_order file.now))
        (λ _. length file.now < C.table.header_length) }
{
    let word = C::SIZE;
    Ok(Header {
        elf_type: number_at(file, 16, byte_order)?,
        machine: number_at(file, 18, byte_order)?,
        version: number_at(file, 20, byte_order)?,
        entry: number_at(file, 24, byte_order)?,
        phoff: number_at(file, 24 + word, byte_order)?,
        shoff: number_at(file, 24 + 2 * word, byte_order)?,
        flags: number_at(file, 24 + 3 * word, byte_order)?,
        ehsize: number_at(file, 28 + 3 * word, byte_order)?,
        phentsize: number_at(file, 30 + 3 * word, byte_order)?,
        phnum: number_at(file, 32 + 3 * word, byte_order)?,
        shentsize: number_at(file, 34 + 3 * word, byte_order)?,
        shnum: number_at(file, 36 + 3 * word, byte_order)?,
        shstrndx: number_at(file, 38 + 3 * word, byte_order)?,
    })
}
