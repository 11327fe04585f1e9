//! Files of which only the tables are read: each part once, into memory of its size. Names stay as they are stored.
#![tactic(auto)]

mod beginning;
pub mod elf;
mod error;
pub mod format;
pub mod loading;
pub mod macho;
mod opened;
pub mod pe;
mod sections;
mod segments;

pub use crate::beginning::Beginning;
pub use crate::error::ReadError;
pub use crate::opened::{Opened, open, part};
pub use binfarce_elf::class::Width;
pub use binfarce_elf_memory::versions::VersionNames;
