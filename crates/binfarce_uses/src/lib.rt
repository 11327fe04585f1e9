//! The examples of `docs/API.md` as a caller writes them, each with a contract that follows from those of the calls in
//! it.
#![tactic(auto)]

pub mod addresses;
pub mod elf;
pub mod filtering;
pub mod image;
pub mod is_big_endian_elf;
pub mod macho;
pub mod name_at;
pub mod names;
pub mod pe;
pub mod reading;
pub mod sections;
pub mod tools;
