//! Images of ELF files.

pub mod one_function;
