//! PE files with COFF symbols (Microsoft PE Format).
#![tactic(auto)]

mod accessors;
pub mod functions;
pub mod header;
mod laws;
pub mod names;
pub mod parts;
pub mod sections;
pub mod symbols;
