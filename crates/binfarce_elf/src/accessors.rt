//! The values of a section header.

ghost use Rattle.std.specs.Prelude.{◌≡◌};
ghost use Rattle.binfarce_elf.specs.Elf.{file_size, memory_size};
ghost use Rattle.binfarce_elf.specs.ElfViews.{section_view};

use crate::class::{Class, Word};
use crate::sections::Section;

// The type of a section without bytes in the file, and the flag of one that has memory (gABI, "Sections").
const SHT_NOBITS: u32 = 8;

const SHF_ALLOC: u64 = 2;

impl<C: Class> Section<C> {
    /// The section's type (`sh_type`): 1 for code and data (`SHT_PROGBITS`), 2 for the symbol table (`SHT_SYMTAB`), 3
    /// for a string table (`SHT_STRTAB`), 8 if it has no bytes in the file (`SHT_NOBITS`).
    pub fn section_type(&self) -> Word
        ensures { result ≡ (section_view C.number_of self.now).kind }
    {
        self.kind
    }

    /// The section's flags (`sh_flags`): 1 if it is writable in memory (`SHF_WRITE`), 2 if it has memory
    /// (`SHF_ALLOC`), 4 if it has instructions (`SHF_EXECINSTR`), and others.
    pub fn flags(&self) -> C
        ensures { C.number_of result ≡ (section_view C.number_of self.now).flags }
    {
        self.flags
    }

    /// The address of the section's first byte in memory (`sh_addr`); 0 if it has none.
    pub fn address(&self) -> C
        ensures { C.number_of result ≡ (section_view C.number_of self.now).address }
    {
        self.address
    }

    /// Where the section's bytes begin in the file (`sh_offset`), as the file states it.
    pub fn offset(&self) -> C
        ensures { C.number_of result ≡ (section_view C.number_of self.now).offset }
    {
        self.offset
    }

    /// The section's size in bytes (`sh_size`), as the file states it. A section of type `SHT_NOBITS` has this size in
    /// memory and no bytes in the file.
    pub fn size(&self) -> C
        ensures { C.number_of result ≡ (section_view C.number_of self.now).size }
    {
        self.size
    }

    /// How many bytes the section has in the file: its size, but 0 if its type is `SHT_NOBITS`.
    pub fn file_size(&self) -> u64
        ensures { result ≡ file_size (section_view C.number_of self.now) }
    {
        if self.kind == SHT_NOBITS {
            0
        } else {
            self.size.widened()
        }
    }

    /// How many bytes the section has in memory: its size where its flags have `SHF_ALLOC`, else 0.
    pub fn memory_size(&self) -> u64
        ensures { result ≡ memory_size (section_view C.number_of self.now) }
    {
        if self.flags.widened() & SHF_ALLOC == 0 {
            0
        } else {
            self.size.widened()
        }
    }
}
