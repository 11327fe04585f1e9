//! Demangles the names in a text: whole, in parts, or as a stream.
#![tactic(auto)]

pub mod filter;
pub mod laws;
pub mod stream;
