//! What both manglings of Rust symbols share: prefixes, hexadecimal digits, and the suffixes that LLVM adds.
#![tactic(auto)]

pub mod digits;
pub mod prefixes;
pub mod streams;
pub mod strides;
pub mod suffixes;
