//! Names in text.

pub mod copy_readable;
pub mod readable;
