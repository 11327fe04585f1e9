//! What ELF files say beyond the function symbols of a section: the functions of all sections in memory, dynamic symbols
//! and their versions, and where a file is loaded.
#![tactic(auto)]

pub mod descriptors;
pub mod ends;
mod laws;
pub mod parts;
pub mod segments;
pub mod selection;
pub mod versions;
