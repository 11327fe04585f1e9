//! Commands, and the options of each.

ghost use Rattle.std.specs.Prelude.{◌≡◌};
ghost use Rattle.binfarce_words.specs.Words.{flags_of};

use crate::flag::Flag;
use crate::flag::Flag::{
    All, Annotate, As, Bare, Base, By, Dynamic, FailAbove, First, Folded, Full, Help, Id, Json,
    Limits, Maps, NoTotal, Offsets, Percent, Raw, Return, Section, Sort, Std, Undefined,
};
use crate::named::Named;

/// A command.
#[derive(Debug, Clone, Copy, PartialEq)]
pub enum Command {
    /// Lists function symbols, or what files need of others.
    List,
    /// Sums sizes by crate.
    Size,
    /// Draws sizes by crate.
    Map,
    /// Compares the sizes of two files.
    Diff,
    /// Makes names in text readable.
    Filter,
    /// Symbolizes addresses.
    At,
    /// Writes a section's bytes, lists sections, or says from which build files are.
    Section,
}

/// All commands.
pub const COMMANDS: [Command; 7] = [
    Command::List,
    Command::Size,
    Command::Map,
    Command::Diff,
    Command::Filter,
    Command::At,
    Command::Section,
];

impl Named for Command {
    ghost use Rattle.binfarce_words.specs.Words.{command_name};

    ghost text = { command_name };

    fn name(self) -> &'static str {
        match self {
            Command::List => "list",
            Command::Size => "size",
            Command::Map => "map",
            Command::Diff => "diff",
            Command::Filter => "filter",
            Command::At => "at",
            Command::Section => "section",
        }
    }
}

impl Command {
    // Its options: first those that not all commands on function symbols have.
    pub(crate) fn flags(self) -> &'static [Flag]
        ensures { result.now ≡ flags_of self }
    {
        match self {
            Command::List => &[
                Sort, First, NoTotal, Raw, Full, Json, Undefined, Section, Dynamic, All, Help,
            ],
            Command::Size => &[
                By, First, Percent, Std, Json, FailAbove, Limits, Section, Dynamic, All, Help,
            ],
            Command::Map => &[First, Std, Folded, Section, Dynamic, All, Help],
            Command::Diff => &[
                By, First, Percent, Std, Json, FailAbove, Limits, Section, Dynamic, All, Help,
            ],
            Command::Filter => &[Full, Help],
            Command::At => &[
                Return, Annotate, Bare, Base, Maps, Offsets, As, Json, Section, Dynamic, All, Help,
            ],
            Command::Section => &[Id, Json, Help],
        }
    }
}
