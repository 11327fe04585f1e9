//! What an ELF file needs from others: its undefined symbols, with their versions and the files that these come from.
#![tactic(auto)]

mod lines;
mod needs;
mod reading;
mod versions;

pub use crate::lines::{Lack, Other, needs_text, unread};
pub use crate::needs::{Need, needs_of};
pub use crate::reading::{Tables, read_needs};
