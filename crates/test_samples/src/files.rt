//! The samples of all formats.

use crate::elf::Layout;
use crate::macho::{MACHO, MAGIC as MACHO_MAGIC};
use crate::pe::{MAGIC as PE_MAGIC, PE};
use crate::{Patch, patched};
use std::alloc::{AllocError, Global};

/// A sample.
#[derive(Clone, Copy, Debug)]
pub enum File {
    Elf(Layout),
    Macho,
    Pe,
}

/// All samples.
pub const FILES: [File; 6] = [
    File::Elf(Layout::Elf32Little),
    File::Elf(Layout::Elf32Big),
    File::Elf(Layout::Elf64Little),
    File::Elf(Layout::Elf64Big),
    File::Macho,
    File::Pe,
];

impl File {
    /// Its format, and of ELF the class and the byte order.
    pub fn name(self) -> &'static str {
        match self {
            File::Elf(Layout::Elf32Little) => "ELF32, little endian",
            File::Elf(Layout::Elf32Big) => "ELF32, big endian",
            File::Elf(Layout::Elf64Little) => "ELF64, little endian",
            File::Elf(Layout::Elf64Big) => "ELF64, big endian",
            File::Macho => "Mach-O",
            File::Pe => "PE",
        }
    }

    /// The file, which has no magic number in Mach-O and PE.
    pub fn bytes(self) -> &'static [u8] {
        match self {
            File::Elf(layout) => layout.bytes(),
            File::Macho => &MACHO,
            File::Pe => &PE,
        }
    }

    /// The magic number that the file lacks.
    pub fn magic(self) -> &'static [Patch<'static>] {
        match self {
            File::Elf(_) => &[],
            File::Macho => &[MACHO_MAGIC],
            File::Pe => &[PE_MAGIC],
        }
    }

    /// The file with its magic number.
    pub fn whole(self, alloc: Global) -> Result<Vec<u8>, AllocError> {
        patched(alloc, self.bytes(), self.magic())
    }
}
