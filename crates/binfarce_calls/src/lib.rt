//! What a call of `binfarce` asks for, by its options; two files compared, and the sections of several.
#![tactic(auto)]

pub mod at;
pub mod compare;
pub mod filter;
mod limits;
pub mod placing;
pub mod request;
pub mod sections;
pub mod status;
