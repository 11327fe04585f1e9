//! Listings of the function symbols of executables, and reports of their sizes by crate.
#![tactic(auto)]

pub mod functions;
pub mod laws;
pub mod list;
pub mod program;
pub mod report;
pub mod tables;
pub mod writing;

pub use binfarce::SymbolTable;
