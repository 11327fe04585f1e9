//! ELF files.

pub mod dynamic_text_symbols;
pub mod first_of_all;
pub mod first_section;
pub mod function_there;
pub mod section_range;
pub mod text_symbols;
