//! PE files.

pub mod section_range;
pub mod text_symbols;
