//! Limits on rows of sums: read from a file, and held against what is counted.
#![tactic(auto)]

pub mod excess;
pub mod reading;
pub mod rows;
