//! The library for C and C++: `binfarce.h` declares the exports, and has the rules for callers.
//!
//! Each export calls functions of `binfarce`, `binfarce_elf`, `binfarce_foreign`, `binfarce_sections` or
//! `binfarce_tools`, and its clauses are theirs, over numbers and buffers.
#![tactic(auto)]

mod buffer;
mod functions;
mod headers;
mod names;
mod sections;
mod status;
mod texts;
