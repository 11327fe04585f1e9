//! Function symbols of executables in an order, sums of their sizes by a key, and how the sums of two files differ.
#![tactic(auto)]

pub mod claims;
pub mod diff;
mod figures;
mod generic;
pub mod key;
pub mod map;
mod module;
pub mod order;
pub mod rows;
pub mod stacks;
pub mod sums;
