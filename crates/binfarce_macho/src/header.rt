//! The file header (Apple's `<mach-o/loader.h>`).

ghost use Rattle.std.specs.Prelude.{◌≡◌, ◌<◌, ◌≤◌, length, MatchResult};
ghost use Rattle.binfarce_macho.specs.Macho.{header_of};
ghost use Rattle.binfarce_macho.specs.MachoViews.{header_view};

use binfarce_bytes::ByteOrder;
use binfarce_bytes::parser::{UnexpectedEof, number_at};

// The length of the header in bytes; the load commands follow it.
pub(crate) const HEADER_LENGTH: usize = 32;

/// The file header (`mach_header_64`), without its magic number.
#[derive(Debug, Clone, Copy)]
pub struct MachoHeader {
    cputype: u32,
    cpusubtype: u32,
    /// The type of the file: an object, a program, a library.
    pub(crate) filetype: u32,
    /// How many load commands there are.
    pub(crate) ncmds: u32,
    /// How many bytes they have together.
    pub(crate) sizeofcmds: u32,
    flags: u32,
}

/// The header of a file; refused for fewer than 28 bytes. Its magic number isn't checked.
#[tactic(auto, unfolding(crate::specs::Macho::header_of, crate::specs::Macho::header_fields))]
pub fn parse_header(file: &[u8]) -> Result<MachoHeader, UnexpectedEof>
    ensures { MatchResult result
        (λ h. (28 ≤ length file.now) × (header_view h ≡ header_of file.now))
        (λ _. length file.now < 28) }
{
    let order = ByteOrder::LittleEndian;
    Ok(MachoHeader {
        cputype: number_at(file, 4, order)?,
        cpusubtype: number_at(file, 8, order)?,
        filetype: number_at(file, 12, order)?,
        ncmds: number_at(file, 16, order)?,
        sizeofcmds: number_at(file, 20, order)?,
        flags: number_at(file, 24, order)?,
    })
}
