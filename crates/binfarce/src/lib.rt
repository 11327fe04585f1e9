//! A small reader of executables: the header, the sections and the function symbols of ELF, Mach-O and PE files.
#![tactic(auto)]

pub use binfarce_bytes::format::{Format, detect_format};
pub use binfarce_bytes::functions::{FunctionSymbol, SectionFunction, symbol_at};
pub use binfarce_bytes::{ByteOrder, ParseError, UnexpectedEof};
pub use binfarce_elf::symbol_table::SymbolTable;
pub use binfarce_names::demangle;

mod elf;
pub mod elf32;
pub mod elf64;
pub mod macho;
pub mod pe;
pub mod symbols;
