//! The command line of `binfarce`: words to a call.
#![tactic(auto)]

pub mod argument;
pub mod call;
mod checks;
pub mod command;
pub mod flag;
pub mod given;
pub mod named;
mod reading;
pub mod takes;
pub mod wrong;
