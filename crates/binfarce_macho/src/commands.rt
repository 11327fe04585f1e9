//! The load commands of a file, one after the other (Apple's `<mach-o/loader.h>`).

ghost use Rattle.std.specs.Prelude.{◌≡◌, ◌+◌, ◌<◌, ◌≤◌, length, MatchResult};
ghost use Rattle.std.specs.Iterator.{UpTo};
ghost use Rattle.binfarce_bytes.specs.Refusal.{refusal_of};
ghost use Rattle.binfarce_macho.specs.Macho.{header_of, command_at, commands};
ghost use Rattle.binfarce_macho.specs.MachoViews.{header_view};
ghost use Rattle.binfarce_macho.specs.machine.RawMacho.{command_view, damage_refusal, commands_left};

use crate::header::{HEADER_LENGTH, MachoHeader};
use binfarce_bytes::parser::{Stream, UnexpectedEof, to_index};
use binfarce_bytes::{ByteOrder, ParseError};

pub(crate) const LC_SYMTAB: u32 = 0x2;

pub(crate) const LC_SEGMENT_64: u32 = 0x19;

// How many bytes a load command has before its body.
pub(crate) const COMMAND_HEAD: u32 = 8;

/// Why a walk ends early. `ParseError` holds a `'static` text, and with it a callback couldn't borrow.
#[derive(Clone, Copy)]
pub(crate) enum Damage {
    Malformed,
    Truncated,
}

impl From<Damage> for ParseError {
    ghost use Rattle.std.specs.Prelude.{◌≡◌};
    ghost use Rattle.binfarce_bytes.specs.Refusal.{refusal_of};
    ghost use Rattle.binfarce_macho.specs.machine.RawMacho.{damage_refusal};

    ghost from_gives = { λ damage error. refusal_of error ≡ damage_refusal damage };

    fn from(damage: Damage) -> Self {
        match damage {
            Damage::Malformed => ParseError::MalformedInput,
            Damage::Truncated => ParseError::UnexpectedEof,
        }
    }
}

/// A load command: where it begins, its kind and its size.
#[derive(Clone, Copy)]
pub(crate) struct Command {
    pub(crate) offset: usize,
    pub(crate) kind: u32,
    pub(crate) size: u32,
}

/// An iterator over load commands, at most as many as are left. A command whose size is below 8 ends it with an error.
#[derive(Clone, Drop)]
pub(crate) struct MachoCommandsIterator<'a> {
    pub(crate) bytes: &'a [u8],
    offset: usize,
    pub(crate) left: u32,
}

impl Iterator for MachoCommandsIterator<'_> {
    ghost use Rattle.std.specs.Prelude.{◌≡◌};
    ghost use Rattle.std.specs.Iterator.{at_most};
    ghost use Rattle.binfarce_macho.specs.machine.RawMacho.{Takes, commands_left};

    type Item = Result<Command, Damage>;

    ghost next_gives = { λ before result after. (after.bytes.now ≡ before.bytes.now)
        × Takes (commands_left before) result (commands_left after) };

    ghost remaining = { λ it. at_most it.left };

    fn next(&mut self) -> Option<Result<Command, Damage>> {
        if self.left == 0 {
            return None;
        }
        match command_at(self.bytes, self.offset) {
            Err(_) => None,
            Ok(command) => {
                if command.size < COMMAND_HEAD {
                    self.left = 0;
                    return Some(Err(Damage::Malformed));
                }
                self.left -= 1;
                self.offset = to_index(self.offset as u64 + command.size as u64);
                Some(Ok(command))
            }
        }
    }
}

// The load commands of a file with this header.
pub(crate) fn commands(file: &[u8], header: MachoHeader) -> MachoCommandsIterator<'_>
    requires { header_view header ≡ header_of file.now }
    ensures bytes { result.bytes.now ≡ file.now }
    ensures left { commands_left result ≡ commands file.now }
    // It gives at most as many items as the header has commands.
    ensures at_most { UpTo (⟦<MachoCommandsIterator<'static> as Iterator>⟧.remaining result)
        (header_of file.now).ncmds }
{
    MachoCommandsIterator {
        bytes: file,
        offset: HEADER_LENGTH,
        left: header.ncmds,
    }
}

// The load command that begins at `offset`; refused if its head is truncated.
pub(crate) fn command_at(bytes: &[u8], offset: usize) -> Result<Command, UnexpectedEof>
    ensures { MatchResult result
        (λ c. (offset + 8 ≤ length bytes.now) × (command_view c ≡ command_at bytes.now offset))
        (λ _. length bytes.now < offset + 8) }
{
    let mut s = Stream::new_at(bytes, offset, ByteOrder::LittleEndian)?;
    let kind = s.read()?;
    let size = s.read()?;
    Ok(Command { offset, kind, size })
}
