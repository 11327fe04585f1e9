//! Legacy names of Rust symbols: reading them, and printing their readable form.
#![tactic(auto)]

pub mod elements;
mod escapes;
pub mod legacy;
mod runs;
