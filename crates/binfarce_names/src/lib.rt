//! Readable names of Rust symbols: the kind of a name, its readable form, and its crate.
#![tactic(auto)]

pub mod demangle;
mod laws;
