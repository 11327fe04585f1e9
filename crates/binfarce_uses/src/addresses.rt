//! Addresses and their symbols.

pub mod line_of;
pub mod write_lines;
