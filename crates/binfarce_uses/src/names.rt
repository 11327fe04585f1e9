//! Names of symbols.

pub mod call_of;
pub mod full_name;
pub mod in_crate;
