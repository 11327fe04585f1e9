//! Symbolizes addresses in an executable: the function symbol that holds each, and the offset into it.
#![tactic(auto)]

pub mod at;
pub mod counts;
pub mod digits;
pub mod lookup;
pub mod names;
pub mod ranges;
mod slices;
pub mod stream;

pub use crate::counts::Counts;
pub use crate::lookup::Lookup;
pub use binfarce_rows::address::parse_address;
