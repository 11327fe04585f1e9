//! The sections of executables: a section's bytes by its name, and a list of all sections.
#![tactic(auto)]

pub mod bytes;
pub mod changes;
pub mod error;
pub mod kinds;
mod laws;
pub mod list;
pub mod rows;
pub mod sections;
pub mod sums;
pub mod tables;
