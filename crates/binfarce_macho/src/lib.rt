//! 64-bit Mach-O files (Apple's `<mach-o/loader.h>` and `<mach-o/nlist.h>`).
#![tactic(auto)]

mod accessors;
mod commands;
pub mod functions;
pub mod header;
mod laws;
pub mod numbered;
pub mod parts;
pub mod sections;
pub mod symbols;
