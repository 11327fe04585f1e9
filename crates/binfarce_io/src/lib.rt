//! The input and output of a command, and why a file is refused.
#![tactic(auto)]

pub mod fault;
pub mod input;
pub mod message;
pub mod output;
