//! Files of which only the tables are read.

pub mod elf_symbols;
pub mod macho_symbols;
pub mod pe_symbols;
pub mod section_parts;
