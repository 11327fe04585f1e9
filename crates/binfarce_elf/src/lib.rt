//! ELF files of both classes and both byte orders (System V gABI).
#![tactic(auto)]

mod accessors;
pub mod class;
pub mod header;
mod laws;
pub mod sections;
pub mod symbol_table;
pub mod symbols;
