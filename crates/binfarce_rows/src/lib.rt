//! What rows are made of: columns, and the members of JSON objects; and addresses as words.
#![tactic(auto)]

pub mod address;
pub mod columns;
pub mod head;
pub mod json;
