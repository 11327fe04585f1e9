//! The symbol tables that a file may have (gABI, "Symbol Table").

ghost use Rattle.std.specs.Prelude.{◌≡◌};
ghost use Rattle.binfarce_elf.specs.SymbolTables.{section_type, table_name, strings_name};

use crate::class::Word;

// The types of sections (gABI, "Sections"): `SHT_SYMTAB`, `SHT_STRTAB` and `SHT_DYNSYM`.
const SYMBOL_TABLE: Word = 2;

pub(crate) const STRING_TABLE: Word = 3;

const DYNAMIC_SYMBOL_TABLE: Word = 11;

/// A symbol table of a file.
#[derive(Debug, Clone, Copy, PartialEq)]
pub enum SymbolTable {
    /// The symbol table (`SHT_SYMTAB`), which a stripped file lacks.
    Symtab,
    /// The dynamic symbol table (`SHT_DYNSYM`), for the dynamic linker. A stripped file keeps it.
    Dynsym,
}

impl SymbolTable {
    /// The type of the table's section (`sh_type`).
    pub fn section_type(self) -> Word
        ensures { result ≡ section_type self }
    {
        match self {
            SymbolTable::Symtab => SYMBOL_TABLE,
            SymbolTable::Dynsym => DYNAMIC_SYMBOL_TABLE,
        }
    }

    /// The name of the table's section.
    pub fn name(self) -> &'static str
        ensures { result.now ≡ table_name self }
    {
        match self {
            SymbolTable::Symtab => ".symtab",
            SymbolTable::Dynsym => ".dynsym",
        }
    }

    /// The name of the section of its strings.
    pub fn strings_name(self) -> &'static str
        ensures { result.now ≡ strings_name self }
    {
        match self {
            SymbolTable::Symtab => ".strtab",
            SymbolTable::Dynsym => ".dynstr",
        }
    }
}
