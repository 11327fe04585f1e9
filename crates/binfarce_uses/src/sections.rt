//! Sections of a file of any format.

pub mod dependencies;
pub mod write_source_dependencies;
