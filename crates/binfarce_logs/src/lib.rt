//! Addresses in texts, such as logs and backtraces: annotates them, and finds where files are loaded in the maps of a
//! process.
#![tactic(auto)]

pub mod annotate;
mod faults;
pub mod framed;
pub mod laws;
pub mod maps;
mod module;
pub mod modules;
mod pages;
mod word;

pub use crate::modules::Module;
