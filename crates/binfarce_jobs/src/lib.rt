//! What the commands of `binfarce` do, over any file, system around them, and output.
#![tactic(auto)]

pub mod at;
mod code;
pub mod files;
pub mod hint;
pub mod limit;
pub mod section;
pub mod show;
