//! Listings and reports.

pub mod all_tables;
pub mod dynamic_tables;
pub mod function_bytes;
pub mod list_text;
pub mod listing;
pub mod sizes;
