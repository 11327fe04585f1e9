//! Images of small ELF files, and the files that they are laid out in.
#![tactic(auto)]

pub mod image;
pub mod laws;
