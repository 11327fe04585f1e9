//! What says from which build a file is: the build ID of an ELF file, the UUID of a Mach-O file, the GUID and the age of a PE
//! file's CodeView record.
#![tactic(auto)]

mod elf;
mod identity;
mod line;
mod macho;
mod notes;
mod pe;
mod reading;

pub use crate::identity::{Identity, Kind};
pub use crate::line::{Lack, Style, identity_line, lacked};
pub use crate::reading::read_identity;
